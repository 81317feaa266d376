//! Why there is no reply of a command, and what is replied then.
ghost use Rattle.std.specs.Prelude.{◌≡◌};
ghost use Rattle.local_answers.specs.Replies.{words_fault, fault_reply};
ghost use Rattle.local_answers.specs.declared.request_fault.RequestFault.TheVariants.{NoMemory};

use request_lines::RequestError;
use std::alloc::AllocError;

/// Why a connection gets no reply of a command. Nothing was changed.
#[derive(Clone, Copy, Debug, PartialEq, Eq)]
pub enum RequestFault {
    /// The line of arguments has more than 65,536 bytes.
    WordsTooLong,
    /// The input has more than 268,435,456 bytes.
    InputTooLong,
    /// The stream ends within the line of arguments.
    NoWords,
    /// The line of arguments is not a JSON array of texts.
    BadWords,
    /// 64 local connections are open, or there is no room for more bytes of requests and replies.
    TooManyRequests,
    /// Memory ran out.
    NoMemory,
}

impl RequestFault {
    /// The whole reply, with its first line. It takes no memory.
    pub fn reply(self) -> &'static [u8]
        ensures { result.now ≡ fault_reply self }
    {
        match self {
            RequestFault::WordsTooLong => {
                b"{\"errors\":26,\"output\":0,\"status\":1}\nfedbundle: words too long\n"
            }
            RequestFault::InputTooLong => {
                b"{\"errors\":26,\"output\":0,\"status\":1}\nfedbundle: input too long\n"
            }
            RequestFault::NoWords => {
                b"{\"errors\":20,\"output\":0,\"status\":1}\nfedbundle: no words\n"
            }
            RequestFault::BadWords => {
                b"{\"errors\":21,\"output\":0,\"status\":1}\nfedbundle: bad words\n"
            }
            RequestFault::TooManyRequests => {
                b"{\"errors\":29,\"output\":0,\"status\":1}\nfedbundle: too many requests\n"
            }
            RequestFault::NoMemory => {
                b"{\"errors\":23,\"output\":0,\"status\":4}\nfedbundle: E2 NoMemory\n"
            }
        }
    }
}

impl From<AllocError> for RequestFault {
    ghost from_gives = { λ _ e. e ≡ NoMemory };

    fn from(_error: AllocError) -> RequestFault {
        RequestFault::NoMemory
    }
}

impl From<RequestError> for RequestFault {
    ghost from_gives = { λ e fault. fault ≡ words_fault e };

    fn from(error: RequestError) -> RequestFault {
        match error {
            RequestError::TooLong => RequestFault::WordsTooLong,
            RequestError::BadLine => RequestFault::BadWords,
            RequestError::NoMemory => RequestFault::NoMemory,
        }
    }
}
