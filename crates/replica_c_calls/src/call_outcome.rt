//! What a caller in C reads of a call.
ghost use Rattle.std.specs.Prelude.{◌≡◌, ◌≤◌, codes, MatchResult, MatchOption};
ghost use Rattle.replica_c_calls.specs.Outcomes.{ReturnsNeedsRoom, Counts, Refuses, WritesOut};
ghost use Rattle.replica_c_calls.specs.Outcomes.{LacksOut, RefusesOut, ReportsFault, fault_text};
ghost use Rattle.replica_c_calls.specs.Outcomes.{out_run};
ghost use Rattle.replica_c_calls.specs.declared.call_error.CallError.TheVariants.{Usage};

use crate::call_error::CallError;
use crate::fault_bytes::{FaultBytes, MAX_TEXT_BYTES};
use crate::fault_numbering::fault_number;

/// What a call returns that was made.
pub const DONE: i64 = 0;

/// What a call returns whose text has more bytes than there is room for. It changed nothing.
pub const NEEDS_ROOM: i64 = 1;

/// What a call returns that asked for something that does not exist.
pub const NONE: i64 = 2;

/// What a call returns that brought what was held already.
pub const ALREADY: i64 = 3;

/// What a call says in addition to what it returns.
#[repr(C)]
pub struct CallOutcome {
    /// What the call counts.
    pub count: u64,
    /// How many bytes the text has: those that were written, or, if there was no room for them,
    /// would have been.
    pub length: u64,
    /// How many bytes of `fault` are the refusal's text.
    pub fault_length: u64,
    /// The text of the refusal.
    pub fault: [u8; MAX_TEXT_BYTES],
}

impl CallOutcome {
    /// Says nothing.
    pub fn clear(&mut self)
        ensures count { self.new.count ≡ 0 }
        ensures length { self.new.length ≡ 0 }
        ensures fault { self.new.fault_length ≡ 0 }
    {
        self.count = 0;
        self.length = 0;
        self.fault_length = 0;
    }

    /// Says why a call is refused, and returns its number as one below 0.
    pub fn refuse(&mut self, error: &CallError) -> i64
        ensures number { Refuses error.now result }
        ensures count { self.new.count ≡ self.old.count }
        ensures length { self.new.length ≡ self.old.length }
        ensures fault { self.new.fault_length ≤ 240 }
        ensures stated { ReportsFault result self.new.fault_length }
        ensures usage { error.now ≡ Usage → fault_text self.new ≡ codes "usage" }
    {
        let text = FaultBytes::of(error);
        let bytes = text.bytes;
        self.fault = bytes;
        self.fault_length = text.len as u64;
        -i64::from(fault_number(error))
    }

    /// Says how much a call counts.
    pub fn count(&mut self, counted: Result<u64, CallError>) -> i64
        ensures counts { Counts counted self.new.count result }
        ensures length { self.new.length ≡ 0 }
        ensures fault { self.new.fault_length ≤ 240 }
        ensures stated { ReportsFault result self.new.fault_length }
    {
        self.clear();
        match counted {
            Ok(count) => {
                self.count = count;
                DONE
            }
            Err(error) => self.refuse(&error),
        }
    }

    /// Says that there is no room for a text of this many bytes.
    pub fn need(&mut self, length: usize) -> i64
        ensures length { self.new.length ≡ length }
        ensures asks { ReturnsNeedsRoom result }
        ensures count { self.new.count ≡ 0 }
        ensures fault { self.new.fault_length ≡ 0 }
        ensures stated { ReportsFault result self.new.fault_length }
    {
        self.clear();
        self.length = length as u64;
        NEEDS_ROOM
    }

    /// Puts the text into `out` if there is room for it.
    pub fn put(&mut self, text: &[u8], out: &mut [u8]) -> i64
        ensures writes { WritesOut text.now (out_run out.old out.new self.new.length result) }
        ensures count { self.new.count ≡ 0 }
        ensures fault { self.new.fault_length ≡ 0 }
        ensures stated { ReportsFault result self.new.fault_length }
    {
        if text.len() > out.len() {
            return self.need(text.len());
        }
        self.clear();
        self.length = text.len() as u64;
        out[..text.len()].copy_from_slice(text);
        DONE
    }

    /// The same for a text that a call returns.
    pub fn put_result(&mut self, made: Result<Vec<u8>, CallError>, out: &mut [u8]) -> i64
        ensures writes { MatchResult made
            (λ text. WritesOut text.items (out_run out.old out.new self.new.length result))
            (λ e. RefusesOut e (out_run out.old out.new self.new.length result)) }
        ensures count { self.new.count ≡ 0 }
        ensures fault { self.new.fault_length ≤ 240 }
        ensures stated { ReportsFault result self.new.fault_length }
    {
        match made {
            Ok(text) => self.put(text.as_slice(), out),
            Err(error) => {
                self.clear();
                self.refuse(&error)
            }
        }
    }

    /// The same for a text that may be absent.
    pub fn put_option(&mut self, made: Result<Option<Vec<u8>>, CallError>, out: &mut [u8]) -> i64
        ensures writes { MatchResult made
            (λ found. MatchOption found (LacksOut (out_run out.old out.new self.new.length result))
            (λ text. WritesOut text.items (out_run out.old out.new self.new.length result)))
            (λ e. RefusesOut e (out_run out.old out.new self.new.length result)) }
        ensures count { self.new.count ≡ 0 }
        ensures fault { self.new.fault_length ≤ 240 }
        ensures stated { ReportsFault result self.new.fault_length }
    {
        match made {
            Ok(Some(text)) => self.put(text.as_slice(), out),
            Ok(None) => {
                self.clear();
                NONE
            }
            Err(error) => {
                self.clear();
                self.refuse(&error)
            }
        }
    }
}
