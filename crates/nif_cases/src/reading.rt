//! Reading a file of cases, line by line.
use crate::bytes::{add_count, add_sized, add_written, changed, replaced, written};
use crate::cases::{Case, Named, Turns};
use crate::faults::Trouble;
use nif_builtin::builtin::{PLAIN, SCENE};
use std::alloc::Global;

/// Where bytes go that are being written.
#[derive(Drop, Clone, Copy)]
enum Goal {
    /// To those that any case can use.
    Known,
    /// To the files of the case.
    File,
    /// To what the case leaves.
    Leaves,
}

/// What was read so far.
#[derive(Drop)]
pub struct Reader {
    alloc: Global,
    /// Bytes that any case can use.
    known: Vec<Named>,
    /// The lines of the last form.
    form: Vec<String>,
    in_form: bool,
    /// The sizes of pieces of a case that names none.
    pieces: Vec<usize>,
    case: Option<Case>,
    building: Option<Named>,
    goal: Goal,
}

/// The first word of a line, and what stands behind it and one blank.
fn split_word(line: &str) -> (&str, &str) {
    match line.split_once(' ') {
        Some(parts) => parts,
        None => (line, ""),
    }
}

/// A number.
fn number<T: std::str::FromStr>(text: &str) -> Result<T, Trouble>
where
    T::Err: Drop,
{
    match text.parse::<T>() {
        Ok(number) => Ok(number),
        Err(_) => Err(Trouble::BadLine),
    }
}

/// Numbers with blanks between them.
fn numbers(alloc: Global, text: &str) -> Result<Vec<usize>, Trouble> {
    let mut numbers = Vec::new(alloc);
    for word in text.split_whitespace() {
        numbers.push(number::<usize>(word)?)?;
    }
    Ok(numbers)
}

/// Words with blanks between them.
fn words(alloc: Global, text: &str) -> Result<Vec<String>, Trouble> {
    let mut words = Vec::new(alloc);
    for word in text.split_whitespace() {
        words.push(String::from_str(alloc, word)?)?;
    }
    Ok(words)
}

/// The bytes of a name.
fn find<'a>(known: &'a [Named], name: &str) -> Option<&'a [u8]> {
    for named in known {
        if named.name.as_str() == name {
            return Some(named.bytes.as_slice());
        }
    }
    None
}

/// Adds bytes so many times.
fn add_times(bytes: &mut Vec<u8>, times: u32, piece: &[u8]) -> Result<(), Trouble> {
    for _time in 0..times {
        bytes.extend_from_slice(piece)?;
    }
    Ok(())
}

/// Does what a line says to bytes that are being written.
fn build(alloc: Global, bytes: &mut Vec<u8>, word: &str, rest: &str) -> Result<(), Trouble> {
    match word {
        "text" => add_written(bytes, rest),
        "line" => {
            add_written(bytes, rest)?;
            Ok(bytes.push(b'\n')?)
        }
        "count" => add_count(bytes, number::<u32>(rest)?),
        "sized" => add_sized(bytes, written(alloc, rest)?.as_slice()),
        "times" => {
            let (times, piece) = split_word(rest);
            let piece = written(alloc, piece)?;
            add_times(bytes, number::<u32>(times)?, piece.as_slice())
        }
        "cut" => {
            bytes.truncate(number::<usize>(rest)?);
            Ok(())
        }
        _ => Err(Trouble::BadLine),
    }
}

/// The bytes with a change that a line says.
fn rebuilt(alloc: Global, bytes: &[u8], word: &str, rest: &str) -> Result<Vec<u8>, Trouble> {
    if word == "at" {
        let (place, new) = split_word(rest);
        let new = written(alloc, new)?;
        return replaced(alloc, bytes, number::<usize>(place)?, new.as_slice());
    }
    let Some((old, new)) = rest.split_once(" => ") else {
        return Err(Trouble::BadLine);
    };
    let old = written(alloc, old)?;
    let new = written(alloc, new)?;
    changed(alloc, bytes, old.as_slice(), new.as_slice())
}

/// Adds what stands behind a `$` in a line of a form: a digit that names a value, and text.
fn add_value(line: &mut String, part: &str, values: &[&str]) -> Result<(), Trouble> {
    let Some((digit, text)) = part.split_at_checked(1) else {
        return Err(Trouble::BadLine);
    };
    let Some(place) = number::<usize>(digit)?.checked_sub(1) else {
        return Err(Trouble::BadLine);
    };
    let Some(value) = values.get(place) else {
        return Err(Trouble::BadLine);
    };
    line.push_str(value)?;
    line.push_str(text)?;
    Ok(())
}

/// The line of a form with values in place of `$1` and so on.
fn filled(alloc: Global, line: &str, values: &[&str]) -> Result<String, Trouble> {
    let mut made = String::new(alloc);
    let mut parts = line.split('$');
    if let Some(text) = parts.next() {
        made.push_str(text)?;
    }
    for part in parts {
        add_value(&mut made, part, values)?;
    }
    Ok(made)
}

/// The lines of a form with these values.
fn filled_form(alloc: Global, form: &[String], values: &[&str]) -> Result<Vec<String>, Trouble> {
    let mut lines = Vec::new(alloc);
    for line in form {
        lines.push(filled(alloc, line.as_str(), values)?)?;
    }
    Ok(lines)
}

/// A case of which only the name is known.
fn new_case(alloc: Global, name: &str, pieces: &[usize]) -> Result<Case, Trouble> {
    let name = String::from_str(alloc, name)?;
    let pieces = Vec::from_slice(alloc, pieces)?;
    Ok(Case {
        name,
        words: Vec::new(alloc),
        files: Vec::new(alloc),
        pieces,
        failing: None,
        unprinted: None,
        turns: Turns::Once,
        status: 0,
        printed: Vec::new(alloc),
        leaves: Vec::new(alloc),
    })
}

/// Adds the letter of a word as often as the number behind it says, or once.
fn add_letters(letters: &mut Vec<u8>, word: &str) -> Result<(), Trouble> {
    let Some((letter, times)) = word.split_at_checked(1) else {
        return Err(Trouble::BadLine);
    };
    let times = if times.is_empty() {
        1
    } else {
        number::<u32>(times)?
    };
    add_times(letters, times, letter.as_bytes())
}

/// A letter for each call.
fn call_letters(alloc: Global, calls: &str) -> Result<Vec<u8>, Trouble> {
    let mut letters = Vec::new(alloc);
    for word in calls.split_whitespace() {
        add_letters(&mut letters, word)?;
    }
    Ok(letters)
}

/// Sets which call or write fails.
fn set_fails(alloc: Global, case: &mut Case, rest: &str) -> Result<(), Trouble> {
    match split_word(rest) {
        ("call", number_text) => case.failing = Some(number::<u64>(number_text)?),
        ("print", number_text) => case.unprinted = Some(number::<u64>(number_text)?),
        ("calls", calls) => {
            case.turns = Turns::Calls {
                letters: call_letters(alloc, calls)?,
            }
        }
        ("prints", "") => case.turns = Turns::Prints,
        _ => return Err(Trouble::BadLine),
    }
    Ok(())
}

/// Adds a file with the bytes of one of the case to what it leaves.
fn set_copies(alloc: Global, case: &mut Case, file: &str) -> Result<(), Trouble> {
    let Some(found) = find(case.files.as_slice(), file) else {
        return Err(Trouble::BadLine);
    };
    let bytes = Vec::from_slice(alloc, found)?;
    let name = String::from_str(alloc, "OUT")?;
    case.leaves.push(Named { name, bytes })?;
    Ok(())
}

/// Does what a line says of a case, but for bytes.
fn set(alloc: Global, case: &mut Case, word: &str, rest: &str) -> Result<(), Trouble> {
    match word {
        "run" => case.words = words(alloc, rest)?,
        "pieces" => case.pieces = numbers(alloc, rest)?,
        "fails" => set_fails(alloc, case, rest)?,
        "cuts" => {
            case.turns = Turns::Cuts {
                parts: numbers(alloc, rest)?,
            }
        }
        "status" => case.status = number::<u8>(rest)?,
        "prints" => {
            add_written(&mut case.printed, rest)?;
            case.printed.push(b'\n')?;
        }
        "copies" => set_copies(alloc, case, rest)?,
        _ => return Err(Trouble::BadLine),
    }
    Ok(())
}

impl Reader {
    /// A reader of no line yet. It knows the bytes `plain schema` and `scene schema`.
    pub fn new(alloc: Global) -> Result<Reader, Trouble> {
        let mut known = Vec::new(alloc);
        for (name, text) in [("plain schema", PLAIN), ("scene schema", SCENE)] {
            let name = String::from_str(alloc, name)?;
            let bytes = Vec::from_slice(alloc, text)?;
            known.push(Named { name, bytes })?;
        }
        let mut pieces = Vec::new(alloc);
        pieces.push(4096)?;
        Ok(Reader {
            alloc,
            known,
            form: Vec::new(alloc),
            in_form: false,
            pieces,
            case: None,
            building: None,
            goal: Goal::Known,
        })
    }

    /// Puts the bytes that were being written where they go.
    fn settle(&mut self) -> Result<(), Trouble> {
        let Some(named) = self.building.take() else {
            return Ok(());
        };
        match (self.goal, &mut self.case) {
            (Goal::Known, _) => Ok(self.known.push(named)?),
            (Goal::File, Some(case)) => Ok(case.files.push(named)?),
            (Goal::Leaves, Some(case)) => Ok(case.leaves.push(named)?),
            (_, None) => Err(Trouble::BadLine),
        }
    }

    /// Begins to write bytes of a name.
    fn begin(&mut self, goal: Goal, name: &str) -> Result<(), Trouble> {
        let name = String::from_str(self.alloc, name)?;
        self.goal = goal;
        self.building = Some(Named {
            name,
            bytes: Vec::new(self.alloc),
        });
        Ok(())
    }

    /// Adds the bytes of a file of the case, or of a name that any case can use.
    fn add_known(&self, bytes: &mut Vec<u8>, name: &str) -> Result<(), Trouble> {
        let own = match &self.case {
            Some(case) => find(case.files.as_slice(), name),
            None => None,
        };
        let found = match own {
            Some(found) => Some(found),
            None => find(self.known.as_slice(), name),
        };
        match found {
            Some(found) => Ok(bytes.extend_from_slice(found)?),
            None => Err(Trouble::BadLine),
        }
    }

    /// Does what a line says to the bytes that are being written.
    fn write(&mut self, word: &str, rest: &str) -> Result<(), Trouble> {
        let Some(Named { name, mut bytes }) = self.building.take() else {
            return Err(Trouble::BadLine);
        };
        let answer = match word {
            "use" => self.add_known(&mut bytes, rest),
            "at" | "change" => match rebuilt(self.alloc, bytes.as_slice(), word, rest) {
                Ok(made) => {
                    bytes = made;
                    Ok(())
                }
                Err(trouble) => Err(trouble),
            },
            _ => build(self.alloc, &mut bytes, word, rest),
        };
        self.building = Some(Named { name, bytes });
        answer
    }

    /// Does what a line of a case says.
    fn take_in_case(&mut self, word: &str, rest: &str) -> Result<(), Trouble> {
        match word {
            "text" | "line" | "use" | "count" | "sized" | "times" | "cut" | "at" | "change" => {
                return self.write(word, rest);
            }
            _ => self.settle()?,
        }
        match (word, &mut self.case) {
            ("bytes", None) => self.begin(Goal::Known, rest),
            ("pieces", None) => {
                self.pieces = numbers(self.alloc, rest)?;
                Ok(())
            }
            ("file", Some(_)) => self.begin(Goal::File, rest),
            ("leaves", Some(_)) => self.begin(Goal::Leaves, rest),
            (_, Some(case)) => set(self.alloc, case, word, rest),
            (_, None) => Err(Trouble::BadLine),
        }
    }

    /// The case that was read, if there is one. A form has to be at its end.
    pub fn finish(&mut self) -> Result<Option<Case>, Trouble> {
        if self.in_form {
            return Err(Trouble::BadLine);
        }
        self.settle()?;
        Ok(self.case.take())
    }

    /// Begins a case of this name.
    fn begin_case(&mut self, name: &str) -> Result<(), Trouble> {
        self.case = Some(new_case(self.alloc, name, self.pieces.as_slice())?);
        Ok(())
    }

    /// Reads a case by the last form, with these values.
    fn take_row(&mut self, values: &[&str]) -> Result<(), Trouble> {
        let Some(name) = values.first() else {
            return Err(Trouble::BadLine);
        };
        self.begin_case(name)?;
        for line in filled_form(self.alloc, self.form.as_slice(), values)? {
            let (word, rest) = split_word(line.as_str());
            self.take_in_case(word, rest)?;
        }
        Ok(())
    }

    /// Reads the values of a row, and the row.
    fn begin_row(&mut self, rest: &str) -> Result<(), Trouble> {
        let values: Vec<&str> = rest.split(" ;; ").collect(self.alloc)?;
        self.take_row(values.as_slice())
    }

    /// Reads a line of a form.
    fn take_in_form(&mut self, line: &str) -> Result<(), Trouble> {
        if line == "end" {
            self.in_form = false;
            return Ok(());
        }
        Ok(self.form.push(String::from_str(self.alloc, line)?)?)
    }

    /// Begins what stands behind a case.
    fn take_outside(&mut self, word: &str, rest: &str) -> Result<(), Trouble> {
        match word {
            "case" => self.begin_case(rest),
            "row" => self.begin_row(rest),
            "form" => {
                self.form.clear();
                self.in_form = true;
                Ok(())
            }
            _ => self.take_in_case(word, rest),
        }
    }

    /// Reads a line; answers the case that ends before it, if one does.
    pub fn take(&mut self, line: &str) -> Result<Option<Case>, Trouble> {
        let line = line.trim_start();
        if line.is_empty() || line.starts_with('#') {
            return Ok(None);
        }
        if self.in_form {
            self.take_in_form(line)?;
            return Ok(None);
        }
        let (word, rest) = split_word(line);
        let ended = match word {
            "case" | "row" | "form" | "bytes" => self.finish()?,
            _ => None,
        };
        self.take_outside(word, rest)?;
        Ok(ended)
    }
}
