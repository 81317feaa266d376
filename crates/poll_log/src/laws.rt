//! What holds of every log. A call that needs a law calls its function, which does nothing, and
//! cites what it ensures.
ghost use Rattle.std.specs.Prelude.{◌≡◌, ℕ, List};
ghost use Rattle.fed_config.specs.Configuration.{Configuration, IsConfiguration};
ghost use Rattle.poll_log.specs.Polling.{PollStatus, polled};
ghost use Rattle.poll_log.specs.PollLines.{IsLogOf, RefusesPolls};
ghost use Rattle.poll_log.specs.declared.error.PollError.{PollError};
ghost use Rattle.poll_log.specs.declared.error.PollError.TheVariants.{NoMemory, Io};

/// Poll lines have one log at most under a configuration, and lines that are refused, except for
/// lack of memory or a failure of their source, have none.
pub fn one_log()
    ensures one { (c : Configuration) (bytes : List ℕ) (a b : List PollStatus) → IsConfiguration c
        → IsLogOf (polled c) bytes a
        → IsLogOf (polled c) bytes b → a ≡ b }
    ensures none { (c : Configuration) (bytes : List ℕ) (e : PollError) (log : List PollStatus)
        → IsConfiguration c
        → RefusesPolls (polled c) bytes e → (e ≡ NoMemory → ⊥) → (e ≡ Io → ⊥)
        → IsLogOf (polled c) bytes log → ⊥ }
{}
