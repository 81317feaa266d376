//! The subcommands, and the options that each takes. What is known of an option for all of them is
//! its row in `option_rows`.
ghost use Rattle.std.specs.Prelude.{◌≡◌, List};
ghost use Rattle.command_line.specs.OptionRows.{options_of, taken_name};
ghost use Rattle.command_line.specs.Words.{name_text};

/// An option, which has one text, or a flag.
#[derive(Clone, Copy, Debug, PartialEq, Eq)]
pub enum OptionName {
    Config,
    State,
    Domain,
    Endpoint,
    Key,
    Now,
    Listen,
    Sessions,
    Peer,
    To,
    RecordsOnly,
    With,
    At,
    Wait,
    MostBytes,
    Allow,
    Floors,
    DryRun,
    Verbose,
    Format,
    Short,
    Socket,
    Peers,
    Every,
    MostRequestBytes,
    New,
    ReadSocket,
    ListenAnywhere,
    /// What is known of keys.
    Keys,
    PublicKey,
    /// A running replica takes a key that it does not know.
    UnknownKey,
    /// The command over files refuses a key that is not known.
    Known,
    ExpiresWithin,
    PeerQuiet,
    Polls,
    Health,
    /// The names by which the address of health may be asked.
    HealthHost,
    Audit,
    /// The configuration that a replica changes from.
    Previous,
    MostReceipts,
    MostRecords,
    /// Asks for sums first.
    Sums,
}

/// A subcommand.
#[derive(Clone, Copy, Debug, PartialEq, Eq)]
pub enum CommandName {
    /// Prints a bundle document in its canonical form, with its ids.
    Canon,
    /// Prints what a configuration says, or what differs between two.
    Config,
    /// Writes a state file that holds nothing.
    New,
    /// Prints what a replica that took the receipts accepts.
    Report,
    /// Prints what a state file holds.
    List,
    /// Prints what only one of two state files holds.
    Diff,
    /// Prints which document vouches for which, as a graph.
    Graph,
    /// Prints the status of a replica.
    Status,
    /// Prints the current bundle of a domain.
    Bundle,
    /// Prints the receipts by which a document is accepted.
    Explain,
    /// Takes a bundle document as it was fetched.
    Observe,
    /// Takes what a snapshot holds.
    Merge,
    /// Prints what goes along to another configuration.
    Migrate,
    /// Prints a configuration whose seeds are the current bundles.
    Reseed,
    /// Prints when each bundle is to be fetched next.
    Polls,
    /// Distrusts a key.
    Distrust,
    /// Answers other replicas.
    Serve,
    /// Asks another replica, and takes what it answers.
    Pull,
    /// Holds what a replica holds in memory, and answers requests and other replicas.
    Replica,
    /// Ends a running replica.
    Stop,
}

/// An option of a subcommand, and when the arguments give it.
#[derive(Clone, Copy, Debug, PartialEq, Eq)]
pub enum TakenOption {
    /// They give it.
    Required(OptionName),
    /// They may leave it out.
    Optional(OptionName),
    /// They give it, unless a running replica is asked: that has it itself, so they leave it out.
    RequiredOverFiles(OptionName),
    /// They may leave it out, and leave it out if a running replica is asked.
    OptionalOverFiles(OptionName),
    /// They may leave it out, and leave it out if no running replica is asked.
    OptionalAtReplica(OptionName),
    /// They may leave it out. It names the running replica that is asked, so those of a request
    /// leave it out.
    Asking(OptionName),
}

/// All subcommands, in the order in which help lists them.
pub(crate) static COMMANDS: [CommandName; 20] = [
    CommandName::Canon,
    CommandName::Config,
    CommandName::New,
    CommandName::Report,
    CommandName::List,
    CommandName::Diff,
    CommandName::Graph,
    CommandName::Status,
    CommandName::Bundle,
    CommandName::Explain,
    CommandName::Observe,
    CommandName::Merge,
    CommandName::Migrate,
    CommandName::Reseed,
    CommandName::Polls,
    CommandName::Distrust,
    CommandName::Serve,
    CommandName::Pull,
    CommandName::Replica,
    CommandName::Stop,
];

impl TakenOption {
    /// The option.
    pub fn name(self) -> OptionName
        ensures { result ≡ taken_name self }
    {
        match self {
            TakenOption::Required(name) => name,
            TakenOption::Optional(name) => name,
            TakenOption::RequiredOverFiles(name) => name,
            TakenOption::OptionalOverFiles(name) => name,
            TakenOption::OptionalAtReplica(name) => name,
            TakenOption::Asking(name) => name,
        }
    }
}

static CANON: [TakenOption; 3] = [
    TakenOption::Required(OptionName::Domain),
    TakenOption::Optional(OptionName::Format),
    TakenOption::Optional(OptionName::Verbose),
];

static CONFIG: [TakenOption; 6] = [
    TakenOption::RequiredOverFiles(OptionName::Config),
    TakenOption::Optional(OptionName::With),
    TakenOption::Optional(OptionName::Format),
    TakenOption::Optional(OptionName::Wait),
    TakenOption::Optional(OptionName::Verbose),
    TakenOption::Asking(OptionName::At),
];

static NEW: [TakenOption; 6] = [
    TakenOption::RequiredOverFiles(OptionName::Config),
    TakenOption::RequiredOverFiles(OptionName::State),
    TakenOption::Optional(OptionName::Wait),
    TakenOption::OptionalOverFiles(OptionName::MostReceipts),
    TakenOption::OptionalOverFiles(OptionName::MostRecords),
    TakenOption::Optional(OptionName::Verbose),
];

static REPORT: [TakenOption; 9] = [
    TakenOption::RequiredOverFiles(OptionName::Config),
    TakenOption::OptionalOverFiles(OptionName::State),
    TakenOption::Optional(OptionName::Format),
    TakenOption::OptionalOverFiles(OptionName::New),
    TakenOption::Optional(OptionName::Wait),
    TakenOption::OptionalOverFiles(OptionName::MostReceipts),
    TakenOption::OptionalOverFiles(OptionName::MostRecords),
    TakenOption::Optional(OptionName::Verbose),
    TakenOption::Asking(OptionName::At),
];

static LIST: [TakenOption; 11] = [
    TakenOption::RequiredOverFiles(OptionName::Config),
    TakenOption::RequiredOverFiles(OptionName::State),
    TakenOption::Optional(OptionName::Domain),
    TakenOption::Optional(OptionName::Keys),
    TakenOption::Optional(OptionName::Format),
    TakenOption::OptionalOverFiles(OptionName::New),
    TakenOption::Optional(OptionName::Wait),
    TakenOption::OptionalOverFiles(OptionName::MostReceipts),
    TakenOption::OptionalOverFiles(OptionName::MostRecords),
    TakenOption::Optional(OptionName::Verbose),
    TakenOption::Asking(OptionName::At),
];

static GRAPH: [TakenOption; 9] = [
    TakenOption::RequiredOverFiles(OptionName::Config),
    TakenOption::RequiredOverFiles(OptionName::State),
    TakenOption::Optional(OptionName::Domain),
    TakenOption::OptionalOverFiles(OptionName::New),
    TakenOption::Optional(OptionName::Wait),
    TakenOption::OptionalOverFiles(OptionName::MostReceipts),
    TakenOption::OptionalOverFiles(OptionName::MostRecords),
    TakenOption::Optional(OptionName::Verbose),
    TakenOption::Asking(OptionName::At),
];

static DIFF: [TakenOption; 9] = [
    TakenOption::RequiredOverFiles(OptionName::Config),
    TakenOption::RequiredOverFiles(OptionName::State),
    TakenOption::Required(OptionName::With),
    TakenOption::OptionalOverFiles(OptionName::New),
    TakenOption::Optional(OptionName::Wait),
    TakenOption::OptionalOverFiles(OptionName::MostReceipts),
    TakenOption::OptionalOverFiles(OptionName::MostRecords),
    TakenOption::Optional(OptionName::Verbose),
    TakenOption::Asking(OptionName::At),
];

static STATUS: [TakenOption; 13] = [
    TakenOption::RequiredOverFiles(OptionName::Config),
    TakenOption::RequiredOverFiles(OptionName::State),
    TakenOption::Optional(OptionName::Format),
    TakenOption::Optional(OptionName::Now),
    TakenOption::Optional(OptionName::ExpiresWithin),
    TakenOption::Optional(OptionName::PeerQuiet),
    TakenOption::Optional(OptionName::Polls),
    TakenOption::OptionalOverFiles(OptionName::New),
    TakenOption::Optional(OptionName::Wait),
    TakenOption::OptionalOverFiles(OptionName::MostReceipts),
    TakenOption::OptionalOverFiles(OptionName::MostRecords),
    TakenOption::Optional(OptionName::Verbose),
    TakenOption::Asking(OptionName::At),
];

static BUNDLE: [TakenOption; 9] = [
    TakenOption::RequiredOverFiles(OptionName::Config),
    TakenOption::RequiredOverFiles(OptionName::State),
    TakenOption::Required(OptionName::Domain),
    TakenOption::Optional(OptionName::Format),
    TakenOption::Optional(OptionName::Wait),
    TakenOption::OptionalOverFiles(OptionName::MostReceipts),
    TakenOption::OptionalOverFiles(OptionName::MostRecords),
    TakenOption::Optional(OptionName::Verbose),
    TakenOption::Asking(OptionName::At),
];

static EXPLAIN: [TakenOption; 10] = [
    TakenOption::RequiredOverFiles(OptionName::Config),
    TakenOption::RequiredOverFiles(OptionName::State),
    TakenOption::Required(OptionName::Domain),
    TakenOption::Optional(OptionName::Short),
    TakenOption::Optional(OptionName::Format),
    TakenOption::Optional(OptionName::Wait),
    TakenOption::OptionalOverFiles(OptionName::MostReceipts),
    TakenOption::OptionalOverFiles(OptionName::MostRecords),
    TakenOption::Optional(OptionName::Verbose),
    TakenOption::Asking(OptionName::At),
];

static OBSERVE: [TakenOption; 10] = [
    TakenOption::RequiredOverFiles(OptionName::Config),
    TakenOption::RequiredOverFiles(OptionName::State),
    TakenOption::Required(OptionName::Domain),
    TakenOption::Required(OptionName::Endpoint),
    TakenOption::Required(OptionName::Key),
    TakenOption::Optional(OptionName::Wait),
    TakenOption::OptionalOverFiles(OptionName::MostReceipts),
    TakenOption::OptionalOverFiles(OptionName::MostRecords),
    TakenOption::Optional(OptionName::Verbose),
    TakenOption::Asking(OptionName::At),
];

static MERGE: [TakenOption; 8] = [
    TakenOption::RequiredOverFiles(OptionName::Config),
    TakenOption::RequiredOverFiles(OptionName::State),
    TakenOption::Optional(OptionName::Wait),
    TakenOption::Optional(OptionName::MostBytes),
    TakenOption::OptionalOverFiles(OptionName::MostReceipts),
    TakenOption::OptionalOverFiles(OptionName::MostRecords),
    TakenOption::Optional(OptionName::Verbose),
    TakenOption::Asking(OptionName::At),
];

static MIGRATE: [TakenOption; 9] = [
    TakenOption::RequiredOverFiles(OptionName::Config),
    TakenOption::RequiredOverFiles(OptionName::State),
    TakenOption::Optional(OptionName::To),
    TakenOption::Optional(OptionName::RecordsOnly),
    TakenOption::Optional(OptionName::Wait),
    TakenOption::OptionalOverFiles(OptionName::MostReceipts),
    TakenOption::OptionalOverFiles(OptionName::MostRecords),
    TakenOption::Optional(OptionName::Verbose),
    TakenOption::Asking(OptionName::At),
];

static RESEED: [TakenOption; 9] = [
    TakenOption::RequiredOverFiles(OptionName::Config),
    TakenOption::RequiredOverFiles(OptionName::State),
    TakenOption::Optional(OptionName::Allow),
    TakenOption::Optional(OptionName::Floors),
    TakenOption::Optional(OptionName::Wait),
    TakenOption::OptionalOverFiles(OptionName::MostReceipts),
    TakenOption::OptionalOverFiles(OptionName::MostRecords),
    TakenOption::Optional(OptionName::Verbose),
    TakenOption::Asking(OptionName::At),
];

static POLLS: [TakenOption; 9] = [
    TakenOption::RequiredOverFiles(OptionName::Config),
    TakenOption::RequiredOverFiles(OptionName::State),
    TakenOption::Required(OptionName::Now),
    TakenOption::Optional(OptionName::Format),
    TakenOption::Optional(OptionName::Wait),
    TakenOption::OptionalOverFiles(OptionName::MostReceipts),
    TakenOption::OptionalOverFiles(OptionName::MostRecords),
    TakenOption::Optional(OptionName::Verbose),
    TakenOption::Asking(OptionName::At),
];

static DISTRUST: [TakenOption; 14] = [
    TakenOption::RequiredOverFiles(OptionName::Config),
    TakenOption::RequiredOverFiles(OptionName::State),
    TakenOption::Required(OptionName::Domain),
    TakenOption::Optional(OptionName::Key),
    TakenOption::Optional(OptionName::PublicKey),
    TakenOption::OptionalAtReplica(OptionName::UnknownKey),
    TakenOption::OptionalOverFiles(OptionName::Known),
    TakenOption::Optional(OptionName::DryRun),
    TakenOption::OptionalOverFiles(OptionName::New),
    TakenOption::Optional(OptionName::Wait),
    TakenOption::OptionalOverFiles(OptionName::MostReceipts),
    TakenOption::OptionalOverFiles(OptionName::MostRecords),
    TakenOption::Optional(OptionName::Verbose),
    TakenOption::Asking(OptionName::At),
];

static SERVE: [TakenOption; 7] = [
    TakenOption::RequiredOverFiles(OptionName::Config),
    TakenOption::RequiredOverFiles(OptionName::State),
    TakenOption::Required(OptionName::Listen),
    TakenOption::Required(OptionName::Sessions),
    TakenOption::OptionalOverFiles(OptionName::MostReceipts),
    TakenOption::OptionalOverFiles(OptionName::MostRecords),
    TakenOption::Optional(OptionName::Verbose),
];

static PULL: [TakenOption; 9] = [
    TakenOption::RequiredOverFiles(OptionName::Config),
    TakenOption::RequiredOverFiles(OptionName::State),
    TakenOption::Required(OptionName::Peer),
    TakenOption::Optional(OptionName::Sums),
    TakenOption::Optional(OptionName::Wait),
    TakenOption::Optional(OptionName::MostBytes),
    TakenOption::OptionalOverFiles(OptionName::MostReceipts),
    TakenOption::OptionalOverFiles(OptionName::MostRecords),
    TakenOption::Optional(OptionName::Verbose),
];

static REPLICA: [TakenOption; 20] = [
    TakenOption::RequiredOverFiles(OptionName::Config),
    TakenOption::Optional(OptionName::Previous),
    TakenOption::RequiredOverFiles(OptionName::State),
    TakenOption::Required(OptionName::Socket),
    TakenOption::Optional(OptionName::ReadSocket),
    TakenOption::Optional(OptionName::Listen),
    TakenOption::Optional(OptionName::Health),
    TakenOption::Optional(OptionName::HealthHost),
    TakenOption::Optional(OptionName::Audit),
    TakenOption::Optional(OptionName::ListenAnywhere),
    TakenOption::Optional(OptionName::Peers),
    TakenOption::Optional(OptionName::Every),
    TakenOption::Optional(OptionName::PeerQuiet),
    TakenOption::Optional(OptionName::ExpiresWithin),
    TakenOption::Optional(OptionName::MostBytes),
    TakenOption::OptionalOverFiles(OptionName::MostReceipts),
    TakenOption::OptionalOverFiles(OptionName::MostRecords),
    TakenOption::Optional(OptionName::MostRequestBytes),
    TakenOption::OptionalOverFiles(OptionName::New),
    TakenOption::Optional(OptionName::Verbose),
];

static STOP: [TakenOption; 3] = [
    TakenOption::Optional(OptionName::Wait),
    TakenOption::Optional(OptionName::Verbose),
    TakenOption::Asking(OptionName::At),
];

impl CommandName {
    /// The subcommand's name on the command line.
    pub fn text<'a>(self) -> &'a str
        ensures { result.now ≡ name_text self }
    {
        match self {
            CommandName::Canon => "canon",
            CommandName::Config => "config",
            CommandName::New => "new",
            CommandName::Report => "report",
            CommandName::List => "list",
            CommandName::Diff => "diff",
            CommandName::Graph => "graph",
            CommandName::Status => "status",
            CommandName::Bundle => "bundle",
            CommandName::Explain => "explain",
            CommandName::Observe => "observe",
            CommandName::Merge => "merge",
            CommandName::Migrate => "migrate",
            CommandName::Reseed => "reseed",
            CommandName::Polls => "polls",
            CommandName::Distrust => "distrust",
            CommandName::Serve => "serve",
            CommandName::Pull => "pull",
            CommandName::Replica => "replica",
            CommandName::Stop => "stop",
        }
    }

    /// The subcommand's options, in the order in which they are read.
    pub fn options(self) -> &'static [TakenOption]
        ensures { result.now ≡ options_of self }
    {
        match self {
            CommandName::Canon => CANON.as_slice(),
            CommandName::Config => CONFIG.as_slice(),
            CommandName::New => NEW.as_slice(),
            CommandName::Report => REPORT.as_slice(),
            CommandName::List => LIST.as_slice(),
            CommandName::Diff => DIFF.as_slice(),
            CommandName::Graph => GRAPH.as_slice(),
            CommandName::Status => STATUS.as_slice(),
            CommandName::Bundle => BUNDLE.as_slice(),
            CommandName::Explain => EXPLAIN.as_slice(),
            CommandName::Observe => OBSERVE.as_slice(),
            CommandName::Merge => MERGE.as_slice(),
            CommandName::Migrate => MIGRATE.as_slice(),
            CommandName::Reseed => RESEED.as_slice(),
            CommandName::Polls => POLLS.as_slice(),
            CommandName::Distrust => DISTRUST.as_slice(),
            CommandName::Serve => SERVE.as_slice(),
            CommandName::Pull => PULL.as_slice(),
            CommandName::Replica => REPLICA.as_slice(),
            CommandName::Stop => STOP.as_slice(),
        }
    }
}
