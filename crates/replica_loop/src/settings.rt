//! What the arguments say of a replica.
use command_line::WarnTimes;
use progress_line::ProgressMode;
use replica_sockets::ListenPlaces;
use std::net::SocketAddr;
use std::time::Duration;

/// What the arguments say of a replica.
#[derive(Clone, Copy, Debug)]
pub struct Settings<'a, 'p> {
    /// The path of the state file.
    pub state: &'a str,
    /// The path of the socket for local requests.
    pub socket: &'a str,
    /// The path of a second socket, at which nothing can be changed.
    pub read_socket: Option<&'a str>,
    /// The path of a file to which a line is appended for each change.
    pub audit: Option<&'a str>,
    /// The address from which other replicas pull.
    pub listen: Option<SocketAddr>,
    /// The address of the pages for health and metrics.
    pub health: Option<SocketAddr>,
    /// The names by which that may be asked.
    pub health_names: &'p [&'a str],
    /// When these warn.
    pub warn_times: WarnTimes,
    /// The version of the program, which they show.
    pub version: &'static str,
    /// From which replicas this one pulls.
    pub peers: &'p [SocketAddr],
    /// How long after a pull began the next one from that peer begins.
    pub every: Duration,
    /// How many bytes the state's files and what a session brings may have together.
    pub most_bytes: u64,
    /// How many bytes requests of this machine and their replies may have together.
    pub most_request_bytes: u64,
    /// Whether it may begin without a state file.
    pub is_new: bool,
    /// Whether each connection that has ended is reported, and not only those that failed.
    pub is_verbose: bool,
    /// Whether it is said how far the state is read or written.
    pub progress: ProgressMode,
}

impl<'a> Settings<'a, '_> {
    /// The places at which the replica listens.
    pub(crate) fn places(&self) -> ListenPlaces<'a> {
        ListenPlaces {
            socket: self.socket,
            read_socket: self.read_socket,
            listen: self.listen,
            health: self.health,
        }
    }
}
