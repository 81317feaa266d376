//! What help and usage say of the command, its subcommands and their options.
use crate::command_name::{CommandName, OptionName};

/// What `--version` prints: the version on a line of its own; then the kit with which it is proved
/// and built, and the formats: the numbers are those in the first lines that are written.
pub const VERSION: &str = "\
0.15.0
kit rattle-kit-13f logic dac8208d650f15bf
state format 2, and 1 is read
journal format 2
have format 2 of 256
give format 2 of 256";

/// The command's usage.
pub(crate) const USAGE: &str = "fedbundle <COMMAND>";

/// What help says after the list of subcommands.
pub(crate) const NOTES: &str = "\
`fedbundle <COMMAND> --help` says what a subcommand reads, what it writes, and how it ends.
A missing state holds nothing, unless that says that it is refused. A state that holds more
than --most-receipts and --most-records allow is refused.

An error is one line on standard error, `fedbundle: ` and a code. Exit status:
  0  done
  1  an input was refused, or what was asked for is not there
  2  invalid arguments
  3  a file, a stream or a connection failed
  4  memory ran out
Of several exit statuses the greatest counts.";

const CANON_NOTES: &str = "\
Reads from standard input a bundle document, JSON of at most 1,048,576 bytes.

Writes to standard output the canonical document, a line `id` with its document id, and
for each X.509 authority a line `key` with its key id. It writes no file.

--format json prints one object: `document` with the id, `sequence`, `refresh_hint`, `keys`,
and `bundle` with the canonical document.

Ends with 0; with 1 if the document or the name of the domain is refused, and then nothing
is printed; with 2 if the format is neither text nor json.";

const CONFIG_NOTES: &str = "\
Reads the configuration, or with --at asks a running replica for its own; with --with
another one, too; and nothing from standard input.

Writes to standard output a line `config` with the configuration's digest, and then its
relationships, its trust domains, its seeds and its floors, a line each; with --with the
lines that only the first configuration has, each after `- `, and then those that only
the other has, each after `+ `. It writes no file. Replicas exchange receipts only if
their configurations are equal, that is, have one digest.

--format json prints one object: `config`, `relationships`, `domains` and `seeds`, and
`floors` if there is one. It cannot be combined with --with.

Ends with 0; with 1 if two configurations have two digests; with 1 and nothing printed if
one is refused; with 2 if the format is neither text nor json.";

const NEW_NOTES: &str = "\
Reads the configuration, and nothing from standard input.

Writes the state file of a replica that holds nothing, by way of FILE.new and under the
lock of FILE.lock. Run it once, before a replica runs for the first time: `replica`,
`report`, `list`, `diff`, `graph`, `status`, `migrate`, `reseed`, and `distrust` with
--dry-run or --known refuse a missing state. So a disk that was not mounted is noticed. It
prints nothing.

Ends with 0; with 1 if the configuration is refused, or if a state file or a journal is
there already, which stays as it is; with 3 if the state is locked.";

const REPORT_NOTES: &str = "\
Reads the configuration. With --state it reads the state file, and nothing from standard
input; a missing state is refused without --new. Without --state it reads from
standard input receipts, each a line of at most 8,388,608 bytes, as `observe` prints them.
At most 65,536 different ones are taken, or the number of --most-receipts, and no record of
distrust is known.

Writes to standard output the report: the configuration's digest, how many receipts are
held and how many of them are pending, and for each domain its current document, its
accepted documents, their conflicts and the keys that are distrusted there. Writes to
standard error the number of each line that is not taken, and why. It writes no file.

--format json prints one object: `config`, `receipts`, `pending`, `domains` with `current`
and `accepted`, `conflicts`, and `records`.

Ends with 0; with 1 if a line was not taken, and the report is printed all the same; with
1 and no report if the configuration or the state is refused or too many receipts fit;
with 2 if the format is neither text nor json.";

const LIST_NOTES: &str = "\
Reads the configuration and the state file, and nothing from standard input. A missing
state is refused without --new.

Writes to standard output a line for each receipt, in the order of the state file, and
then one for each record of distrust; with --domain only those of that domain:
  receipt <id> domain <domain> sequence <number> document <id> endpoint <SPIFFE ID>
    key <key id> voucher <document id> <status>
  distrust <key id> domain <domain>
The status is `accepted` if an accepted document vouches for the receipt, `distrusted` if
its key is distrusted in the endpoint's domain, and otherwise `pending`. It writes no
file.

--keys prints what is known of each key instead: a line for each X.509 authority that an
accepted document lists, and then for those that only other documents of receipts list:
  key <key id> domain <domain> public-key <digest> from <time> to <time>
    distrusted <yes or no> same-public-key <yes or no> bundles <document id>..
    subject <subject>
The digest is the SHA-256 of the public key in the certificate, which is valid from and to
these times, in UTC as 2027-01-31T23:59:59Z. The subject is written as RFC 4514 says, or
is `empty`. They are `none` if the certificate cannot be read, and the subject also if
only it cannot. `same-public-key` is `yes` for a key that accepted documents list and that is
not distrusted, if a distrusted key of the domain has its public key. The bundles are the
accepted documents that list it.

--format json prints one object of `receipts` and `records`, whose members are named as
above; with --keys one object of `keys`.

Ends with 0; with 1 and nothing printed if anything read or the name of the domain is
refused; with 2 if the format is neither text nor json.";

const DIFF_NOTES: &str = "\
Reads the configuration, the state file, and with --with another state file under the
same configuration, and nothing from standard input. A missing state is refused without
--new. With --at a running replica is the first, and --with names a state file without a
journal, or the socket of another running replica.

Writes to standard output the line that `list` prints of each receipt and each record of
distrust that the first state holds and the other does not, after `- `, and then of each
that only the other holds, after `+ `. The status in a receipt's line is that in the state
that holds it. It writes no file.

Ends with 0 if both hold the same, and then nothing is printed; with 1 if they do not;
with 1 and nothing printed if anything read is refused.";

const GRAPH_NOTES: &str = "\
Reads the configuration and the state file, and nothing from standard input. A missing
state is refused without --new.

Writes to standard output which document vouches for which, as a graph in the language of
Graphviz: `fedbundle graph .. | dot -Tsvg` draws it. A box is a document, with two borders
if it is configured, and bold if it is the current one of its domain. An arrow is a
receipt, from the document that vouches for it to the one that it brought, with the first
digits of its key: dashed if it is pending, and red if its key is distrusted. With
--domain it has the receipts that brought documents of the domain, and each document at
either end is drawn as what it is, also one of another domain. It writes no file.

Ends with 0; with 1 and nothing printed if anything read or the name of the domain is
refused.";

const STATUS_NOTES: &str = "\
Reads the configuration and the state file, and nothing from standard input. A missing
state is refused without --new. With --polls it also reads the polls so far, lines as
`polls` reads them.

Writes to standard output how the replica stands: the configuration's digest, how many
receipts and records of distrust are held, and for each trust domain its current bundle
with the keys of that, and how many bundles are accepted and are in conflict. It writes
no file. A line `warning` follows for each configured bundle without an X.509 authority,
for each distrusted key that a current bundle lists, and if more than nine tenths of the
receipts or of the records of distrust that are allowed are held.

At the end it writes a line `warning: KIND: ..` for all that needs attention:
  no-current   a domain has no current bundle
  locked-out   a current bundle has no X.509 authority that is not distrusted
  conflict     accepted bundles of a domain have one sequence number
  no-sequence  a current bundle without a sequence number is one of several
  same-key     a key that can vouch has the public key of a distrusted one
  expires      a certificate of a current bundle ends within --expires-within
  not-fetched  no poll of a domain succeeded for three times its wait, by --polls
  quiet-peer   no session with a peer ended well for --peer-quiet, with --at
  nearly-full  more than nine tenths of the receipts or of the records are held
The second at which this holds is --now, or that of the clock.

--format json prints one object, and --format prometheus gauges in the text format of
Prometheus. Both have the warnings.

Ends with 0; with 1 if there is a warning of the first sort, and all is printed; with 1
and nothing printed if anything read is refused; with 2 if the format is none of the
three.";

const BUNDLE_NOTES: &str = "\
Reads the configuration and the state file, and nothing from standard input.

Writes to standard output the domain's current document in its canonical form, on a line;
with --format pem the certificates of its X.509 authorities as PEM, which is nothing if it
has no such authority. It writes no file.

Ends with 0; with 1 if the domain has no current document, or if the configuration, the
state or the name of the domain is refused; with 2 if the format is neither json nor pem.";

const EXPLAIN_NOTES: &str = "\
Reads the configuration, the state file, and from standard input a bundle document, JSON
of at most 1,048,576 bytes.

Writes to standard output the receipts, a line each, of a shortest chain that leads from a
configured document to this one; none for a configured document. It writes no file.

With --short it writes a line for each receipt of the chain, the last one first, and then
one for the configured document:
  DOCUMENT_ID sequence N <- key KEY_ID of DOCUMENT_ID
  DOCUMENT_ID configured

--format json prints one object: `document`, `configured` with the id of the configured
document, and `receipts`. It cannot be combined with --short.

Ends with 0; with 1 if the document is not accepted, or if anything read is refused; with 2
if the format is neither text nor json.";

const OBSERVE_NOTES: &str = "\
Reads the configuration, the state file, and from standard input a bundle document as it
was fetched, JSON of at most 1,048,576 bytes. What --endpoint and --key say is the verdict
of TLS on the connection that brought it, and is believed.

Writes to standard output the receipt, on a line, and then the state file with it, by way
of FILE.new and under the lock of FILE.lock: at most 65,536 receipts are held, or the
number of --most-receipts. What is printed counts only if the exit status is 0.

Ends with 0; with 1 if anything read is refused, if the endpoint is another than the
relationship says, or if the current document of its domain does not list the key. Then
the state file is as it was.";

const MERGE_NOTES: &str = "\
Reads the configuration, the state file, and from standard input a snapshot: a state file
under the same configuration, with lines of at most 8,388,608 bytes.

Writes to standard output `new` and how many of its receipts were not held, and then the
state file, which holds what either held, by way of FILE.new and under the lock of
FILE.lock: at most 65,536 receipts and 4,096 records of distrust, or the numbers of
--most-receipts and --most-records. What is printed counts only if the exit status is 0.

Ends with 0; with 1 if anything read is refused or the two together are too many. Then
nothing is taken, and the state file is as it was.";

const MIGRATE_NOTES: &str = "\
Reads the configuration, the state file, and the other configuration of --to, and nothing
from standard input. A missing state is refused. With --at a running replica has the
first two.

Writes to standard output the state file under the other configuration: the receipts that
fit it, and the records of distrust whose domain it has; with --records-only only the
records. Without --to it stays under the same configuration, and the output is a snapshot
of what is held, as `merge` reads one.

Writes to standard error a line for each record and each receipt that is left out,
`left out record <key id> of <domain>: <cause>` or `left out receipt <receipt id> of
<domain>: <cause>`. It writes no file. Replicas that held the same print the same.

Ends with 0; with 1 if something was left out, and the rest is printed; with 1 and nothing
printed if anything read is refused.";

const RESEED_NOTES: &str = "\
Reads the configuration and the state file, or with --at asks a running replica; nothing
from standard input. A missing state is refused.

Writes to standard output the configuration with the same relationships and floors, whose
seeds are the current bundles. It writes no file. `migrate --records-only` carries over the
records of distrust.

--floors raises the floors: that of a domain becomes the sequence of its current bundle. A
domain without a current bundle keeps its floor, if it has one, and a current bundle without
a sequence gives none. A line on standard error says how many of the receipts that are held
fit the new configuration, as `receipts that stay: 100 of 24120`; `migrate` takes those along.

Ends with 0; with 1 if anything read is refused, or if a current bundle lists a distrusted
key or another bundle has its sequence: then each such domain, except the one of --allow,
has a line on standard error, and nothing else is printed.";

const POLLS_NOTES: &str = "\
Reads the configuration, the state file, and from standard input the polls so far in their
order, a line each: `<domain> ok <seconds>` or `<domain> fail <seconds>`, with a domain
that has a relationship and a time in Unix seconds. It reads no clock.

Writes to standard output a line for each relationship: `<domain> due`,
`<domain> <seconds>` with the time of its next poll, or `<domain> past range`. It writes no
file.

--format json prints one object of `polls`, each with `domain`, `due`, and `next`, which is
null if the poll is due or past the range.

Ends with 0; with 1 if anything read is refused, and then nothing is printed; with 2 if the
format is neither text nor json.";

const DISTRUST_NOTES: &str = "\
Reads the configuration and the state file, and nothing from standard input.

Writes the state file, by way of FILE.new and under the lock of FILE.lock, with the record
that the key vouches for nothing in the domain any more; at most 4,096 records are held, or
the number of --most-records, and none is ever taken back. It prints nothing; with
--verbose it first writes to standard error what the record changes.

With --at a running replica makes the record. It refuses a key that none of the domain's
bundles lists, held or configured, unless --unknown-key is given; and it prints a line for
each domain of which documents are not accepted any more, with how many:
  fell DOMAIN N
With --known the command over files refuses such a key, too, and a missing state without
--new.

A key id is that of one certificate. With --public-key in place of --key it makes a record
for each key of the domain that is known now and whose certificate has this public key, as
`list --keys` prints it, and prints a line `distrusted KEY_ID` for each. All of them are
made or none. A certificate that is issued later for that public key is not refused:
`status` warns of it as `same-key`.

With --dry-run it writes no file, refuses a missing state without --new, and
writes to standard output what the record would change, domain by domain:
  falls DOMAIN document ID sequence N
  current DOMAIN before ID sequence N after ID sequence N
  gains DOMAIN key KEY_ID
  loses DOMAIN key KEY_ID
  lists DOMAIN key KEY_ID
  locked-out DOMAIN
`falls` is a document that is not accepted any more. `current` comes for the domain of
--domain, and for each whose current document changes; then the keys that only the later or
only the earlier one has, the distrusted ones that the later one still lists, and
`locked-out` if none of its keys can vouch. A line begins with `warning` if no document of
the domain that is held lists the key. Last comes a line for each key of an accepted document
of the domain that is not distrusted though a distrusted one has its public key, for
example since its certificate was issued again; it can still vouch:
  same public key: KEY_ID of DOMAIN in ID

Ends with 0, even if the record was held; with 1 if the domain is not one of the
configuration, if the key is not known where it has to be, if no known key has the public
key, or if anything read is refused. Then no record is made, and the state file is as it
was.";

const SERVE_NOTES: &str = "\
Reads the configuration and the state file once, and writes no file. It waits at the
address for one client after another, as long as it takes, and answers the haves of
each until the client closes its end. Nothing is encrypted, and nobody is asked who it is.

A session ends with the error S9 if a read or a write moves no byte for 30 seconds, and
with the first read or write that begins when 600 seconds are over: so a session takes 630
seconds at most. Its error is a line on standard error, and it counts as served.

Writes to standard output, at the end, `served` and how many sessions there were.

Ends with the greatest exit status of its sessions: with 1 if what a client sent is
refused. Ends with 1 and without a session if anything read or the address is refused, and
with 3 if the address is taken.";

const PULL_NOTES: &str = "\
Reads the configuration and the state file, asks the other replica, which has to have the
same configuration, for the receipts and the records of distrust that this one lacks, and
takes what is answered. It asks about all 256 parts of what is held, in one session.

With --sums it asks for a sum of each part first, and then only about those that differ:
much less is sent if both hold nearly the same. A replica that does not know sums ends
the connection; it is then asked about all parts, on a second one.

Writes to standard output `new` and how many receipts were not held, and then the state
file, by way of FILE.new and under the lock of FILE.lock: at most 65,536 receipts and
4,096 records of distrust are held, or the numbers of --most-receipts and --most-records.
If the session ends with an error, what came before it is taken and written too, `new` is
not printed, and the error's line ends with `taken` and how many receipts were new.

To connect takes 30 seconds at most: if it does not succeed, or if nobody serves at the
address, it ends with the error S9, and writes nothing. The session ends with S9 if a read
or a write moves no byte for 30 seconds, and with the first read or write that begins when
600 seconds are over: so it takes 630 seconds at most.

Ends with 0; with 1 if anything read or answered is refused; with 3 if there is no
connection or it failed.";

const REPLICA_NOTES: &str = "\
Reads the configuration and the state file, and nothing from standard input. It keeps what
they hold in memory, and the lock of FILE.lock, until `stop` ends it. At most 65,536
receipts and 4,096 records of distrust are held, or the numbers of --most-receipts and
--most-records; the commands with --at leave these two out.

Answers requests of this machine on the socket, whose mode is 0600: the commands with --at.
At the one of --read-socket, whose mode is 0660, it refuses `stop` and all that would
change what it holds: those who may only look are in that socket's group.
Answers other replicas at the address of --listen, as `serve` does, and pulls from each of
--peers, as `pull --sums` does. Everyone who reaches it gets all that is held, so an address
that is not a loopback address is refused without --listen-anywhere. At most 160 connections are
open at once: 64 requests of this machine, of them 48 at the socket of --read-socket, 48 on
which other replicas ask, 16 at the address of --health, one with each peer, and some that
are only refused. A connection on which nothing moves for 30 seconds is closed, and so is one
whose request or session takes more than 600 seconds, and a pull in which fewer than 1,000 bytes
move in a second. If there are too many, the one that has asked nothing whole for the longest is
closed.

At the address of --health it answers HTTP requests, GET and HEAD: /live, /ready, /metrics
for Prometheus, /status.json, /report.json, /keys.json, /graph.dot and / for people. Nothing
can be changed there. It is asked by an IP address, by localhost or by a name of
--health-host; other names, and pages of other sites in a browser, are refused. A certificate
is warned of --expires-within before its end, and a peer that was quiet for --peer-quiet.

With --previous it changes from that configuration to the one of --config. A state of the
previous one is carried over at the start, as by `migrate`; what it held remains in
FILE.previous until the first start without --previous. Each replica is answered under the
configuration that it names, and is asked under the previous one if it does not answer
under the new one. What comes under one of them is taken under the other if it fits.

Each change is appended to FILE.journal and put on the disk before it is acknowledged. The
journal is folded into the state file at the start, and when it has more than 8,388,608
bytes and more than half of those of the state file. A missing state is refused: `new`
writes one, or --new begins without it.

Writes to standard output a line `ready`, the configuration's digest, `receipts` and how
many are held, `distrusts` and how many records, once it accepts requests. Writes to
standard error a line for each event, with pairs of a word and a value.

Ends with 0 after `stop`; with 1 if the configuration or the state is refused, or if there
is no state file; with 3 if the state is locked, the socket is taken, or a change could not
be put on the disk.";

const STOP_NOTES: &str = "\
Asks the running replica whose socket is at the path to end, and reads nothing from
standard input. What the replica acknowledged before is on the disk.

It prints nothing, and writes no file.

Ends with 0; with 3 if no replica answers there, or not in time.";

impl CommandName {
    /// What help says of the subcommand.
    pub(crate) fn about<'a>(self) -> &'a str {
        match self {
            CommandName::Canon => {
                "Prints the bundle document on standard input in its canonical form, with its ids"
            }
            CommandName::Config => "Prints what a configuration says, or where two differ",
            CommandName::New => "Writes the state file of a replica that holds nothing",
            CommandName::Report => {
                "Prints what receipts make a replica accept: those of the state file, or of \
                standard input"
            }
            CommandName::List => "Prints each receipt and each record of distrust that is held",
            CommandName::Diff => "Prints what only one of two states holds",
            CommandName::Graph => "Prints which document vouches for which, as a graph",
            CommandName::Status => "Prints how the replica stands, and what needs attention",
            CommandName::Bundle => "Prints the current bundle of a domain",
            CommandName::Explain => {
                "Prints the receipts by which the document on standard input is accepted"
            }
            CommandName::Observe => {
                "Takes the bundle document on standard input, as it was fetched, and prints its \
                receipt"
            }
            CommandName::Merge => "Takes what the snapshot on standard input holds",
            CommandName::Migrate => "Prints the state file for another configuration",
            CommandName::Reseed => "Prints a configuration whose seeds are the current bundles",
            CommandName::Polls => {
                "Reads poll lines on standard input and prints when each bundle is to be fetched \
                next"
            }
            CommandName::Distrust => "Revokes a key in a domain: it vouches for nothing any more",
            CommandName::Serve => "Answers other replicas that pull from this one",
            CommandName::Pull => "Asks another replica, and takes what this one lacks",
            CommandName::Replica => {
                "Runs as a daemon: answers requests of this machine and other replicas, and pulls"
            }
            CommandName::Stop => "Ends a running replica",
        }
    }

    /// What help says of an option of the subcommand: what its row says, or something else.
    pub(crate) fn about_option<'a>(self, option: OptionName) -> &'a str {
        match (self, option) {
            (CommandName::Canon, OptionName::Format) =>
                "The format of what is printed: text, or json",
            (CommandName::Report, OptionName::State) =>
                "The state file, in place of standard input",
            (CommandName::List | CommandName::Graph, OptionName::Domain) =>
                "The one trust domain whose lines are printed",
            (CommandName::Status, OptionName::Now) =>
                "The present time, in Unix seconds; a negative one as --now=-5 [that of the clock]",
            (CommandName::Replica, OptionName::Listen) =>
                "The address where other replicas pull: an IP address and a port",
            _ => option.row().about,
        }
    }

    /// The subcommand's usage: its name and its options, each with what its text is.
    pub(crate) fn usage<'a>(self) -> &'a str {
        match self {
            CommandName::Canon =>
                "fedbundle canon --domain <DOMAIN> [--format <FORMAT>] [--verbose]",
            CommandName::Config => {
                "fedbundle config --config <FILE> [--with <FILE>] [--format <FORMAT>] \
                [--verbose]\n       \
                fedbundle config --at <PATH> [--with <FILE>] [--format <FORMAT>] \
                [--wait <SECONDS>] [--verbose]"
            }
            CommandName::New => {
                "fedbundle new --config <FILE> --state <FILE> [--wait <SECONDS>] \
                [--most-receipts <COUNT>] [--most-records <COUNT>] [--verbose]"
            }
            CommandName::Report => {
                "fedbundle report --config <FILE> [--state <FILE>] [--format <FORMAT>] [--new] \
                [--most-receipts <COUNT>] [--most-records <COUNT>] [--verbose]\n       \
                fedbundle report --at <PATH> [--format <FORMAT>] [--wait <SECONDS>] [--verbose]"
            }
            CommandName::List => {
                "fedbundle list --config <FILE> --state <FILE> [--domain <DOMAIN>] [--keys] \
                [--format <FORMAT>] [--new] [--most-receipts <COUNT>] [--most-records <COUNT>] \
                [--verbose]\n       \
                fedbundle list --at <PATH> [--domain <DOMAIN>] [--keys] [--format <FORMAT>] \
                [--wait <SECONDS>] [--verbose]"
            }
            CommandName::Diff => {
                "fedbundle diff --config <FILE> --state <FILE> --with <FILE> [--new] \
                [--most-receipts <COUNT>] [--most-records <COUNT>] [--verbose]\n       \
                fedbundle diff --at <PATH> --with <FILE> [--wait <SECONDS>] [--verbose]"
            }
            CommandName::Graph => {
                "fedbundle graph --config <FILE> --state <FILE> [--domain <DOMAIN>] [--new] \
                [--most-receipts <COUNT>] [--most-records <COUNT>] [--verbose]\n       \
                fedbundle graph --at <PATH> [--domain <DOMAIN>] [--wait <SECONDS>] [--verbose]"
            }
            CommandName::Status => {
                "fedbundle status --config <FILE> --state <FILE> [--format <FORMAT>] \
                [--now <SECONDS>] [--expires-within <DAYS>] [--polls <FILE>] [--new] \
                [--most-receipts <COUNT>] [--most-records <COUNT>] [--verbose]\n       \
                fedbundle status --at <PATH> [--format <FORMAT>] [--now <SECONDS>] \
                [--expires-within <DAYS>] [--peer-quiet <SECONDS>] [--polls <FILE>] \
                [--wait <SECONDS>] [--verbose]"
            }
            CommandName::Bundle => {
                "fedbundle bundle --config <FILE> --state <FILE> --domain <DOMAIN> \
                [--format <FORMAT>] [--most-receipts <COUNT>] [--most-records <COUNT>] \
                [--verbose]\n       \
                fedbundle bundle --at <PATH> --domain <DOMAIN> [--format <FORMAT>] \
                [--wait <SECONDS>] [--verbose]"
            }
            CommandName::Explain => {
                "fedbundle explain --config <FILE> --state <FILE> --domain <DOMAIN> [--short] \
                [--format <FORMAT>] [--most-receipts <COUNT>] [--most-records <COUNT>] \
                [--verbose]\n       \
                fedbundle explain --at <PATH> --domain <DOMAIN> [--short] [--format <FORMAT>] \
                [--wait <SECONDS>] [--verbose]"
            }
            CommandName::Observe => {
                "fedbundle observe --config <FILE> --state <FILE> --domain <DOMAIN> \
                --endpoint <SPIFFE_ID> --key <KEY_ID> [--wait <SECONDS>] [--most-receipts <COUNT>] \
                [--most-records <COUNT>] [--verbose]\n       \
                fedbundle observe --at <PATH> --domain <DOMAIN> --endpoint <SPIFFE_ID> \
                --key <KEY_ID> [--wait <SECONDS>] [--verbose]"
            }
            CommandName::Merge => {
                "fedbundle merge --config <FILE> --state <FILE> [--wait <SECONDS>] \
                [--most-bytes <BYTES>] [--most-receipts <COUNT>] [--most-records <COUNT>] \
                [--verbose]\n       \
                fedbundle merge --at <PATH> [--wait <SECONDS>] [--most-bytes <BYTES>] [--verbose]"
            }
            CommandName::Migrate => {
                "fedbundle migrate --config <FILE> --state <FILE> [--to <FILE>] [--records-only] \
                [--most-receipts <COUNT>] [--most-records <COUNT>] [--verbose]\n       \
                fedbundle migrate --at <PATH> [--to <FILE>] [--records-only] [--wait <SECONDS>] \
                [--verbose]"
            }
            CommandName::Reseed => {
                "fedbundle reseed --config <FILE> --state <FILE> [--allow <DOMAIN>] [--floors] \
                [--most-receipts <COUNT>] [--most-records <COUNT>] [--verbose]\n       \
                fedbundle reseed --at <PATH> [--allow <DOMAIN>] [--floors] [--wait <SECONDS>] \
                [--verbose]"
            }
            CommandName::Polls => {
                "fedbundle polls --config <FILE> --state <FILE> --now <SECONDS> \
                [--format <FORMAT>] [--most-receipts <COUNT>] [--most-records <COUNT>] \
                [--verbose]\n       \
                fedbundle polls --at <PATH> --now <SECONDS> [--format <FORMAT>] [--wait <SECONDS>] \
                [--verbose]"
            }
            CommandName::Distrust => {
                "fedbundle distrust --config <FILE> --state <FILE> --domain <DOMAIN> \
                --key <KEY_ID> [--known] [--dry-run] [--new] [--wait <SECONDS>] \
                [--most-receipts <COUNT>] [--most-records <COUNT>] [--verbose]\n       \
                fedbundle distrust --at <PATH> --domain <DOMAIN> --key <KEY_ID> [--unknown-key] \
                [--dry-run] [--wait <SECONDS>] [--verbose]\n       \
                fedbundle distrust .. --domain <DOMAIN> --public-key <DIGEST> [--wait <SECONDS>] \
                [--verbose]"
            }
            CommandName::Serve => {
                "fedbundle serve --config <FILE> --state <FILE> --listen <ADDRESS> \
                --sessions <COUNT> [--most-receipts <COUNT>] [--most-records <COUNT>] [--verbose]"
            }
            CommandName::Pull => {
                "fedbundle pull --config <FILE> --state <FILE> --peer <ADDRESS> [--sums] \
                [--wait <SECONDS>] [--most-bytes <BYTES>] [--most-receipts <COUNT>] \
                [--most-records <COUNT>] [--verbose]"
            }
            CommandName::Replica => {
                "fedbundle replica --config <FILE> [--previous <FILE>] --state <FILE> \
                --socket <PATH> [--read-socket <PATH>] [--listen <ADDRESS>] [--health <ADDRESS>] \
                [--health-host <NAME,..>] [--audit <PATH>] [--listen-anywhere] \
                [--peers <ADDRESS,..>] [--every <SECONDS>] [--peer-quiet <SECONDS>] \
                [--expires-within <DAYS>] [--most-bytes <BYTES>] [--most-receipts <COUNT>] \
                [--most-records <COUNT>] [--most-request-bytes <BYTES>] [--new] [--verbose]"
            }
            CommandName::Stop => "fedbundle stop --at <PATH> [--wait <SECONDS>] [--verbose]",
        }
    }

    /// What help says after the subcommand's options: what it reads and writes, and how it ends.
    pub(crate) fn notes<'a>(self) -> &'a str {
        match self {
            CommandName::Canon => CANON_NOTES,
            CommandName::Config => CONFIG_NOTES,
            CommandName::New => NEW_NOTES,
            CommandName::Report => REPORT_NOTES,
            CommandName::List => LIST_NOTES,
            CommandName::Diff => DIFF_NOTES,
            CommandName::Graph => GRAPH_NOTES,
            CommandName::Status => STATUS_NOTES,
            CommandName::Bundle => BUNDLE_NOTES,
            CommandName::Explain => EXPLAIN_NOTES,
            CommandName::Observe => OBSERVE_NOTES,
            CommandName::Merge => MERGE_NOTES,
            CommandName::Migrate => MIGRATE_NOTES,
            CommandName::Reseed => RESEED_NOTES,
            CommandName::Polls => POLLS_NOTES,
            CommandName::Distrust => DISTRUST_NOTES,
            CommandName::Serve => SERVE_NOTES,
            CommandName::Pull => PULL_NOTES,
            CommandName::Replica => REPLICA_NOTES,
            CommandName::Stop => STOP_NOTES,
        }
    }
}
