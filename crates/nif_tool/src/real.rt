//! The outside of the real program: the system's files, and a writer of std. They tell no content, and count each
//! failure.
ghost use Rattle.std.specs.Prelude.{◌≡◌, ◌<◌, ◌≤◌, Option, Some, None, refl};
ghost use Rattle.std.proofs.Common.{arith};
ghost use Rattle.nif_base.specs.ShelfView.{untold, Stayed, stayed_same, stayed_joined, Grew, grew_same, grew_joined};

use nif_base::{Failed, Shelf, Sink, Source};
use std::fs;
use std::io::{Read, Write};
use std::rt::Files;

/// Files of the system, by their paths. Each call makes one call of std; where that answers an error, or a write of
/// some bytes takes none, the call fails. It tells no content.
#[derive(Drop)]
pub struct RealShelf<'a, R: Files> {
    rt: &'a R,
    input: Option<R::File>,
    output: Option<R::File>,
    read_faults: u64,
    write_faults: u64,
    open_faults: u64,
}

impl<'a, R: Files> RealShelf<'a, R> {
    /// No file is opened yet, and no count has risen.
    pub fn new(rt: &'a R) -> RealShelf<'a, R>
        ensures reads { ⟦<RealShelf<'a, R> as Source>⟧.read_faults result ≡ 0 }
        ensures writes { ⟦<RealShelf<'a, R> as Sink>⟧.write_faults result ≡ 0 }
        ensures opens { ⟦<RealShelf<'a, R> as Shelf>⟧.open_faults result ≡ 0 }
    {
        RealShelf {
            rt,
            input: None,
            output: None,
            read_faults: 0,
            write_faults: 0,
            open_faults: 0,
        }
    }
}

impl<R: Files> Source for RealShelf<'_, R> {
    ghost left = { λ _. None };

    ghost read_faults = { λ s. s.read_faults };

    ghost still = { λ a b. Stayed (untold a.read_faults a.write_faults a.open_faults)
        (untold b.read_faults b.write_faults b.open_faults) };

    ghost still_same = { λ a. stayed_same _ };

    ghost still_joined = { λ a b c p q. stayed_joined _ _ _ p q };

    ghost still_counts = { λ a b p. p.reads };

    fn read(&mut self, buf: &mut [u8]) -> Result<usize, Failed> {
        let Some(file) = &mut self.input else {
            return Ok(0);
        };
        match file.read(buf) {
            Ok(count) => Ok(count),
            Err(_) => {
                self.read_faults = self.read_faults.saturating_add(1);
                Err(Failed)
            }
        }
    }
}

impl<R: Files> Sink for RealShelf<'_, R> {
    ghost taken = { λ _. None };

    ghost write_faults = { λ s. s.write_faults };

    ghost grew = { λ a x b. Grew (untold a.read_faults a.write_faults a.open_faults) x
        (untold b.read_faults b.write_faults b.open_faults) };

    ghost grew_same = { λ a. grew_same _ };

    ghost grew_joined = { λ a b c x y z p q e. grew_joined _ _ _ x y z p q e };

    ghost grew_counts = { λ a b x p. p.writes };

    ghost grew_taken = { λ a b x p. refl };

    fn write(&mut self, piece: &[u8]) -> Result<usize, Failed> {
        let Some(file) = &mut self.output else {
            return Ok(piece.len());
        };
        match file.write(piece) {
            Ok(count) if count > 0 || piece.is_empty() => Ok(count),
            _ => {
                self.write_faults = self.write_faults.saturating_add(1);
                Err(Failed)
            }
        }
    }
}

impl<R: Files> Shelf for RealShelf<'_, R> {
    ghost desk = { λ _. None };

    ghost refused = { λ _. None };

    ghost open_faults = { λ s. s.open_faults };

    fn open_input(&mut self, name: &str) -> Result<(), Failed> {
        match fs::open(self.rt, name) {
            Ok(file) => {
                self.input = Some(file);
                Ok(())
            }
            Err(_) => {
                self.open_faults = self.open_faults.saturating_add(1);
                Err(Failed)
            }
        }
    }

    fn create_output(&mut self, name: &str) -> Result<(), Failed> {
        match fs::create(self.rt, name) {
            Ok(file) => {
                self.input = None;
                self.output = Some(file);
                Ok(())
            }
            Err(_) => {
                self.open_faults = self.open_faults.saturating_add(1);
                Err(Failed)
            }
        }
    }

    ghost left_told = { λ a h. h };

    ghost no_input = { λ a d e f. Prim.cc };

    ghost still_desk = { λ a b p. p.desk };

    ghost still_refused = { λ a b p. p.refused };

    ghost still_taken = { λ a b p. refl };

    ghost still_writes = { λ a b p. p.writes };

    ghost still_opens = { λ a b p. p.opens };

    ghost grew_left = { λ a b x p. p.left };

    ghost grew_desk = { λ a b x p. p.desk };

    ghost grew_refused = { λ a b x p. p.refused };

    ghost grew_reads = { λ a b x p. p.reads };

    ghost grew_opens = { λ a b x p. p.opens };
}

/// A writer of std as a sink. Each write makes one write of std; where that answers an error, or takes none of some
/// bytes, it fails. It tells no content.
#[derive(Drop)]
pub struct WriterSink<W> {
    inner: W,
    faults: u64,
}

impl<W: Write> WriterSink<W> {
    /// A sink over this writer; no count has risen.
    pub fn new(inner: W) -> WriterSink<W>
        ensures { ⟦<WriterSink<W> as Sink>⟧.write_faults result ≡ 0 }
    {
        WriterSink { inner, faults: 0 }
    }
}

impl<W: Write> Sink for WriterSink<W> {
    ghost taken = { λ _. None };

    ghost write_faults = { λ s. s.faults };

    ghost grew = { λ a x b. a.faults ≤ b.faults };

    ghost grew_same = { λ a. Prim.omega arith };

    ghost grew_joined = { λ a b c x y z p q e. Prim.omega arith };

    ghost grew_counts = { λ a b x p. p };

    ghost grew_taken = { λ a b x p. refl };

    fn write(&mut self, piece: &[u8]) -> Result<usize, Failed> {
        match self.inner.write(piece) {
            Ok(count) if count > 0 || piece.is_empty() => Ok(count),
            _ => {
                self.faults = self.faults.saturating_add(1);
                Err(Failed)
            }
        }
    }
}
