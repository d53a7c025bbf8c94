//! The calls of a form in memory: they are counted, and some are to fail.
ghost use Rattle.std.specs.Prelude.{◌≡◌, [], ◌∷◌, ◌++◌, OnOk, OnErr};
ghost use Rattle.std.specs.Option.{option_to_list};
ghost use Rattle.nif_base.specs.MemCalls.{Calls, fails, counted};

use crate::faults::NoMemory;
use std::alloc::Global;
use std::marker::Model;

/// The number of the next call, and of the one call that is to fail.
#[derive(Drop)]
pub struct OneCall {
    next: u64,
    failing: Option<u64>,
}

impl Model for OneCall {
    ghost Value = { Calls };

    ghost view = { λ c. record { next = c.next; failing = option_to_list c.failing } };
}

impl OneCall {
    /// No call was made yet; the call of this number, counted from 0, is to fail.
    pub fn new(failing: Option<u64>) -> OneCall
        ensures { result ≡ record { next = 0; failing = option_to_list failing } }
    {
        OneCall { next: 0, failing }
    }

    /// Counts a call, and says whether it is to fail.
    pub fn is_failing(&mut self) -> bool
        ensures fails { result ≡ fails self.old }
        ensures counted { self.new ≡ counted self.old }
    {
        let call = self.next;
        self.next = call.saturating_add(1);
        match self.failing {
            Some(failing) => failing == call,
            None => false,
        }
    }
}

/// The number of the next call, and of those that are to fail.
#[derive(Drop)]
pub struct MemCalls {
    next: u64,
    failing: Vec<u64>,
}

impl Model for MemCalls {
    ghost Value = { Calls };

    ghost view = { λ c. record { next = c.next; failing = c.failing.items } };
}

impl MemCalls {
    /// No call was made yet, and none is to fail.
    pub fn new(alloc: Global) -> MemCalls
        ensures { result ≡ record { next = 0; failing = [] } }
    {
        MemCalls {
            next: 0,
            failing: Vec::new(alloc),
        }
    }

    /// Counts a call, and says whether it is to fail.
    pub fn is_failing(&mut self) -> bool
        ensures fails { result ≡ fails self.old }
        ensures counted { self.new ≡ counted self.old }
    {
        let call = self.next;
        self.next = call.saturating_add(1);
        self.failing.as_slice().contains(&call)
    }

    /// The call of this number, counted from 0, is to fail, too.
    pub fn fail(&mut self, number: u64) -> Result<(), NoMemory>
        ensures ok { OnOk result (self.new ≡ record self.old { failing = self.old.failing ++ number ∷ [] }) }
        ensures err { OnErr result (self.new ≡ self.old) }
    {
        match self.failing.push(number) {
            Ok(()) => Ok(()),
            Err(_) => Err(NoMemory),
        }
    }
}
