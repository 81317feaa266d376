//! The table of the options: a row for each, which says all that is so for every subcommand.
ghost use Rattle.std.specs.Prelude.{◌≡◌};
ghost use Rattle.command_line.specs.OptionRows.{is_flag, is_path, kind_of, option_text};
ghost use Rattle.command_line.specs.declared.option_rows.OptionKind.TheVariants.{Flag, Path, Text};

use crate::command_name::OptionName;

/// What an option has after its name.
#[derive(Clone, Copy, Debug, PartialEq, Eq)]
pub(crate) enum OptionKind {
    /// Nothing: it is given or not.
    Flag,
    /// The path of a file or of a socket.
    Path,
    /// Another text.
    Text,
}

/// What is known of an option.
#[derive(Clone, Copy, Debug)]
pub(crate) struct OptionRow {
    /// Its name.
    pub(crate) name: &'static str,
    /// What it has after its name.
    pub(crate) kind: OptionKind,
    /// What help calls its text; nothing for a flag.
    pub(crate) value: &'static str,
    /// What help says of it, if the subcommand says nothing else (`CommandName::about_option`).
    pub(crate) about: &'static str,
}

impl OptionName {
    /// The option's row.
    pub(crate) fn row(self) -> OptionRow
        ensures name { result.name.now ≡ option_text self }
        ensures kind { result.kind ≡ kind_of self }
    {
        match self {
            OptionName::Config => path(
                "config",
                "FILE",
                "The configuration, as JSON: at most 1,024 relationships and 4,096 seeds",
            ),
            OptionName::State => path("state", "FILE", "The state file"),
            OptionName::Domain => text(
                "domain",
                "DOMAIN",
                "A trust domain name, of at most 255 bytes",
            ),
            OptionName::Endpoint => text(
                "endpoint",
                "SPIFFE_ID",
                "The SPIFFE ID that the endpoint was authenticated as, of at most 2,048 bytes",
            ),
            OptionName::Key => text(
                "key",
                "KEY_ID",
                "The SHA-256 of an authority's certificate, 64 digits of 0-9 and a-f",
            ),
            OptionName::Now => text(
                "now",
                "SECONDS",
                "The present time, in Unix seconds; a negative one as --now=-5",
            ),
            OptionName::Listen => text(
                "listen",
                "ADDRESS",
                "The address to wait at: an IP address and a port",
            ),
            OptionName::Sessions => text(
                "sessions",
                "COUNT",
                "How many sessions to serve, from 1 to 1000000",
            ),
            OptionName::Peer => text(
                "peer",
                "ADDRESS",
                "The address at which the other replica serves: an IP address and a port",
            ),
            OptionName::To => path(
                "to",
                "FILE",
                "The other configuration, as JSON with the same limits [the same one]",
            ),
            OptionName::RecordsOnly => flag(
                "records-only",
                "Takes only the records of distrust, and no receipt",
            ),
            OptionName::With => path(
                "with",
                "FILE",
                "What to compare with: a file of the same kind; `diff --at` takes a socket, too",
            ),
            OptionName::At => path(
                "at",
                "PATH",
                "The socket of a running replica, in place of the two files",
            ),
            OptionName::Wait => text(
                "wait",
                "SECONDS",
                "How long to wait for the state's lock, or for a running replica's reply, from 0 \
                to 86400 seconds [60]",
            ),
            OptionName::MostBytes => text(
                "most-bytes",
                "BYTES",
                "How many bytes to take at most, with those of the state file [268435456]",
            ),
            OptionName::Allow => text(
                "allow",
                "DOMAIN",
                "A domain whose current bundle may be a seed even so",
            ),
            OptionName::Floors => flag(
                "floors",
                "Makes the sequence of each current bundle the floor of its domain",
            ),
            OptionName::DryRun => flag("dry-run", "Prints what would change, and writes no file"),
            OptionName::Verbose => flag("verbose", "Says more on standard error"),
            OptionName::Format => text(
                "format",
                "FORMAT",
                "The format of what is printed; the formats are named below",
            ),
            OptionName::Short => flag("short", "Prints a short line for each step"),
            OptionName::Socket => path(
                "socket",
                "PATH",
                "The path of the socket to answer requests of this machine at",
            ),
            OptionName::Peers => text(
                "peers",
                "ADDRESS,..",
                "The addresses of at most 16 replicas to pull from, with commas between them",
            ),
            OptionName::Every => text(
                "every",
                "SECONDS",
                "How long after a pull began the next one from that peer begins, from 1 to 86400 \
                seconds [60]",
            ),
            OptionName::MostRequestBytes => text(
                "most-request-bytes",
                "BYTES",
                "How many bytes requests and their replies may have together [536870912]",
            ),
            OptionName::New => flag("new", "Takes a missing state for one that holds nothing"),
            OptionName::ReadSocket => path(
                "read-socket",
                "PATH",
                "The path of a second socket, at which nothing can be changed",
            ),
            OptionName::ListenAnywhere => flag(
                "listen-anywhere",
                "Allows an address of --listen or --health that is not a loopback one",
            ),
            OptionName::Keys => flag(
                "keys",
                "Prints what is known of each X.509 key, in place of what is held",
            ),
            OptionName::PublicKey => text(
                "public-key",
                "DIGEST",
                "The SHA-256 of the public key in certificates, 64 digits of 0-9 and a-f",
            ),
            OptionName::UnknownKey => flag(
                "unknown-key",
                "Takes a key that no bundle held there lists",
            ),
            OptionName::Known => flag(
                "known",
                "Refuses a key that no bundle held here lists, and a missing state",
            ),
            OptionName::ExpiresWithin => text(
                "expires-within",
                "DAYS",
                "How long before its end a certificate is warned of, from 0 to 36525 days [7]",
            ),
            OptionName::PeerQuiet => text(
                "peer-quiet",
                "SECONDS",
                "How long a peer may be quiet, from 0 to 31536000 seconds [600]",
            ),
            OptionName::Polls => path("polls", "FILE", "The polls so far, as `polls` reads them"),
            OptionName::Health => text(
                "health",
                "ADDRESS",
                "The address of health, metrics and a page: an IP address and a port",
            ),
            OptionName::HealthHost => text(
                "health-host",
                "NAME,..",
                "The names by which --health may be asked, with commas between them",
            ),
            OptionName::Audit => path(
                "audit",
                "PATH",
                "The path of a file to which a line of JSON is appended for each change",
            ),
            OptionName::Previous => path(
                "previous",
                "FILE",
                "The configuration to change from; a missing file counts as if it was not named",
            ),
            OptionName::MostReceipts => text(
                "most-receipts",
                "COUNT",
                "How many receipts may be held, from 1 to 4194304 [65536]",
            ),
            OptionName::MostRecords => text(
                "most-records",
                "COUNT",
                "How many records of distrust may be held, from 1 to 65536 [4096]",
            ),
            OptionName::Sums => flag(
                "sums",
                "Asks for sums first, and then only about what differs",
            ),
        }
    }

    /// The option's name, which its argument has after two hyphens.
    pub fn text<'a>(self) -> &'a str
        ensures { result.now ≡ option_text self }
    {
        self.row().name
    }

    /// Whether it is a flag, which has no text after it.
    pub fn is_flag(self) -> bool
        ensures { result ≡ is_flag self }
    {
        match self.row().kind {
            OptionKind::Flag => true,
            OptionKind::Path => false,
            OptionKind::Text => false,
        }
    }

    /// Whether its text is the path of a file or of a socket.
    pub(crate) fn is_path(self) -> bool
        ensures { result ≡ is_path self }
    {
        match self.row().kind {
            OptionKind::Flag => false,
            OptionKind::Path => true,
            OptionKind::Text => false,
        }
    }
}

fn flag(name: &'static str, about: &'static str) -> OptionRow
    ensures name { result.name.now ≡ name.now }
    ensures kind { result.kind ≡ Flag }
{
    OptionRow {
        name,
        kind: OptionKind::Flag,
        value: "",
        about,
    }
}

fn path(name: &'static str, value: &'static str, about: &'static str) -> OptionRow
    ensures name { result.name.now ≡ name.now }
    ensures kind { result.kind ≡ Path }
{
    OptionRow {
        name,
        kind: OptionKind::Path,
        value,
        about,
    }
}

fn text(name: &'static str, value: &'static str, about: &'static str) -> OptionRow
    ensures name { result.name.now ≡ name.now }
    ensures kind { result.kind ≡ Text }
{
    OptionRow {
        name,
        kind: OptionKind::Text,
        value,
        about,
    }
}
