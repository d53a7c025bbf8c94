//! Running a case over a shelf in memory.
use crate::cases::{Case, Named, Turns};
use crate::faults::Trouble;
use crate::showing::add_shown;
use nif_base::{MemShelf, MemSink};
use nif_tool::run;
use std::alloc::Global;

/// How a case is run once.
#[derive(Drop, Clone, Copy)]
struct Setting {
    piece: usize,
    failing: Option<u64>,
    unprinted: Option<u64>,
    /// How many bytes of the first file are there, if not all.
    cut: Option<usize>,
}

/// What one run is to come to.
#[derive(Drop, Clone, Copy)]
struct Want<'a> {
    status: u8,
    printed: &'a [u8],
    /// How many bytes are there of the files that the case leaves, if it comes to that.
    leaves: Option<usize>,
}

/// What the case itself wants.
fn own_want(case: &Case) -> Want<'_> {
    Want {
        status: case.status,
        printed: case.printed.as_slice(),
        leaves: Some(usize::MAX),
    }
}

/// How the case itself is run, in pieces of a size.
fn own_setting(case: &Case, piece: usize) -> Setting {
    Setting {
        piece,
        failing: case.failing,
        unprinted: case.unprinted,
        cut: None,
    }
}

/// At most so many of the first bytes.
fn first(bytes: &[u8], most: usize) -> &[u8] {
    match bytes.split_at_checked(most) {
        Some((front, _)) => front,
        None => bytes,
    }
}

/// Puts the files of a case on a shelf.
fn put_files(shelf: &mut MemShelf, case: &Case, cut: Option<usize>) -> Result<(), Trouble> {
    let mut most = cut.unwrap_or(usize::MAX);
    for file in &case.files {
        if shelf
            .put(file.name.as_str(), first(file.bytes.as_slice(), most))
            .is_err()
        {
            return Err(Trouble::NoMemory);
        }
        most = usize::MAX;
    }
    Ok(())
}

/// A shelf with the files of a case.
fn shelf_of(alloc: Global, case: &Case, setting: Setting) -> Result<MemShelf, Trouble> {
    let mut shelf = MemShelf::new(alloc, setting.piece.max(1));
    put_files(&mut shelf, case, setting.cut)?;
    if let Some(call) = setting.failing {
        if shelf.fail_call(call).is_err() {
            return Err(Trouble::NoMemory);
        }
    }
    Ok(shelf)
}

/// Whether a file is there with these bytes.
fn has(shelf: &MemShelf, name: &str, bytes: &[u8]) -> bool {
    match shelf.file(name) {
        Some(found) => found == bytes,
        None => false,
    }
}

/// Whether a file of the name is among these.
fn names(files: &[Named], name: &str) -> bool {
    files.iter().any(|file| file.name.as_str() == name)
}

/// Whether the files are as they were, but for those that the case leaves, of which so many bytes are there.
fn files_are(shelf: &MemShelf, case: &Case, cut: Option<usize>, leaves: Option<usize>) -> bool {
    let leaves = if case.leaves.is_empty() { None } else { leaves };
    let mut most = cut.unwrap_or(usize::MAX);
    for file in &case.files {
        let name = file.name.as_str();
        let replaced = leaves.is_some() && names(case.leaves.as_slice(), name);
        if !replaced && !has(shelf, name, first(file.bytes.as_slice(), most)) {
            return false;
        }
        most = usize::MAX;
    }
    let Some(count) = leaves else {
        return names(case.files.as_slice(), "OUT") || shelf.file("OUT").is_none();
    };
    for file in &case.leaves {
        if !has(
            shelf,
            file.name.as_str(),
            first(file.bytes.as_slice(), count),
        ) {
            return false;
        }
    }
    true
}

/// Adds what was wanted or what came.
fn add_answer(report: &mut String, label: &str, status: u8, printed: &[u8]) -> Result<(), Trouble> {
    write!(report, "  {label}: status {status}, ")?;
    add_shown(report, printed)?;
    report.push_str("\n")?;
    Ok(())
}

/// Adds how a case was run.
fn add_setting(report: &mut String, name: &str, setting: Setting) -> Result<(), Trouble> {
    let piece = setting.piece;
    write!(report, "differs: {name}\n  in pieces of {piece}")?;
    if let Some(call) = setting.failing {
        write!(report, ", call {call} refused")?;
    }
    if let Some(write) = setting.unprinted {
        write!(report, ", write {write} of the text refused")?;
    }
    if let Some(length) = setting.cut {
        write!(report, ", cut to {length} bytes")?;
    }
    report.push_str("\n")?;
    Ok(())
}

/// What one run came to.
#[derive(Drop)]
struct Came {
    status: u8,
    printed: Vec<u8>,
    files_are: bool,
    /// Whether the shelf tells each refusal, as it does unless memory ran out.
    tells_refusals: bool,
}

/// Runs a case once.
fn come(alloc: Global, case: &Case, setting: Setting, want: Want<'_>) -> Result<Came, Trouble> {
    let mut shelf = match shelf_of(alloc, case, setting) {
        Ok(shelf) => shelf,
        Err(trouble) => return Err(trouble),
    };
    let mut out = MemSink::new(alloc, setting.piece.max(1), setting.unprinted);
    let answer = run(alloc, case.words.as_slice(), &mut shelf, &mut out);
    let printed = Vec::from_slice(alloc, out.bytes())?;
    Ok(Came {
        status: answer.status as u8,
        printed,
        files_are: files_are(&shelf, case, setting.cut, want.leaves),
        tells_refusals: shelf.tells_refusals(),
    })
}

/// Whether a run comes to what is wanted; where it doesn't, the report tells it.
fn agrees(
    alloc: Global,
    case: &Case,
    setting: Setting,
    want: Want<'_>,
    report: &mut String,
) -> Result<bool, Trouble> {
    let came = come(alloc, case, setting, want)?;
    let same_text = came.printed.as_slice() == want.printed;
    if came.status == want.status && same_text && came.files_are && came.tells_refusals {
        return Ok(true);
    }
    add_setting(report, case.name.as_str(), setting)?;
    add_answer(report, "wanted", want.status, want.printed)?;
    add_answer(report, "came", came.status, came.printed.as_slice())?;
    if !came.files_are {
        report.push_str("  other files than wanted\n")?;
    }
    if !came.tells_refusals {
        report.push_str("  refusals are not told\n")?;
    }
    Ok(false)
}

/// What is printed where a call of the shelf is refused.
fn refusal(letter: u8) -> &'static [u8] {
    match letter {
        b'r' => b"nif: read fault\n",
        b'w' => b"nif: write fault\n",
        _ => b"nif: open fault\n",
    }
}

/// What a run is to come to where a call is refused after so many written bytes.
fn refused(letter: u8, count: usize) -> Want<'static> {
    Want {
        status: 5,
        printed: refusal(letter),
        leaves: if letter == b'w' { Some(count) } else { None },
    }
}

/// Runs a case with each call of the shelf refused in its turn, and then with the call refused that is not made.
fn agrees_at_calls(
    alloc: Global,
    case: &Case,
    piece: usize,
    letters: &[u8],
    report: &mut String,
) -> Result<bool, Trouble> {
    let mut setting = own_setting(case, piece);
    let mut call = 0u64;
    let mut count = 0usize;
    for letter in letters {
        setting.failing = Some(call);
        if !agrees(alloc, case, setting, refused(*letter, count), report)? {
            return Ok(false);
        }
        call = call.saturating_add(1);
        if *letter == b'w' {
            count = count.saturating_add(piece);
        }
    }
    setting.failing = Some(call);
    agrees(alloc, case, setting, own_want(case), report)
}

/// Runs a case with each write of the text refused in its turn, and then with the write refused that is not made.
fn agrees_at_prints(
    alloc: Global,
    case: &Case,
    piece: usize,
    report: &mut String,
) -> Result<bool, Trouble> {
    let mut setting = own_setting(case, piece);
    let mut write = 0u64;
    for printed in case.printed.chunks(piece.max(1)) {
        let start = (write as usize).saturating_mul(piece);
        setting.unprinted = Some(write);
        let want = Want {
            status: 5,
            printed: first(case.printed.as_slice(), start),
            leaves: Some(usize::MAX),
        };
        if printed.is_empty() || !agrees(alloc, case, setting, want, report)? {
            return Ok(false);
        }
        write = write.saturating_add(1);
    }
    setting.unprinted = Some(write);
    agrees(alloc, case, setting, own_want(case), report)
}

/// Where the last part begins that begins at most at a place.
fn beginning(parts: &[usize], place: usize) -> usize {
    let mut beginning = 0;
    for part in parts {
        if *part <= place {
            beginning = *part;
        }
    }
    beginning
}

/// Runs a case with its first file cut to a length.
fn agrees_cut(
    alloc: Global,
    case: &Case,
    setting: Setting,
    beginning: usize,
    report: &mut String,
) -> Result<bool, Trouble> {
    let printed = format!(in alloc; "nif: file F1: ended at {beginning}\n")?;
    let want = Want {
        status: 1,
        printed: printed.as_bytes(),
        leaves: None,
    };
    agrees(alloc, case, setting, want, report)
}

/// Runs a case with its first file cut at each length.
fn agrees_at_cuts(
    alloc: Global,
    case: &Case,
    piece: usize,
    parts: &[usize],
    report: &mut String,
) -> Result<bool, Trouble> {
    let Some(file) = case.files.first() else {
        return Err(Trouble::BadLine);
    };
    let mut setting = own_setting(case, piece);
    for length in 0..file.bytes.len() {
        setting.cut = Some(length);
        if !agrees_cut(alloc, case, setting, beginning(parts, length), report)? {
            return Ok(false);
        }
    }
    setting.cut = None;
    agrees(alloc, case, setting, own_want(case), report)
}

/// Runs a case in pieces of a size.
fn agrees_in(
    alloc: Global,
    case: &Case,
    piece: usize,
    report: &mut String,
) -> Result<bool, Trouble> {
    match &case.turns {
        Turns::Once => agrees(
            alloc,
            case,
            own_setting(case, piece),
            own_want(case),
            report,
        ),
        Turns::Calls { letters } => agrees_at_calls(alloc, case, piece, letters.as_slice(), report),
        Turns::Prints => agrees_at_prints(alloc, case, piece, report),
        Turns::Cuts { parts } => agrees_at_cuts(alloc, case, piece, parts.as_slice(), report),
    }
}

/// Whether a case comes to what it wants in all its runs. The report tells the first run that doesn't.
pub fn holds(alloc: Global, case: &Case, report: &mut String) -> Result<bool, Trouble> {
    for piece in &case.pieces {
        if !agrees_in(alloc, case, *piece, report)? {
            return Ok(false);
        }
    }
    Ok(true)
}
