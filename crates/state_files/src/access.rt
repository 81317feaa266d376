//! Who may read and write a file: its mode, its owner and its group.
use command_exits::FileFault;
use std::fs::{File, Metadata, OpenOptions, Permissions};
use std::os::unix::fs::{MetadataExt, OpenOptionsExt, PermissionsExt, fchown};

/// The mode of a new file: its owner alone reads and writes it.
const OWNER_ONLY: u32 = 0o600;

/// The bits of a mode that say who reads, writes and runs a file.
const ACCESS_BITS: u32 = 0o777;

/// Those of the bits that are not about the file's group.
const BITS_BUT_GROUP: u32 = 0o707;

/// Options to write a file. If opening makes it, only its owner reads and writes it.
pub(crate) fn owner_only() -> OpenOptions {
    let mut options = OpenOptions::new();
    options.write(true).mode(OWNER_ONLY);
    options
}

/// Gives the file the owner, the group and the mode of another. If the system does not allow
/// that owner or group, the group has no access.
pub(crate) fn take_access(file: &File, other: &Metadata) -> Result<(), FileFault> {
    let own = file.metadata()?;
    let is_of_same = (own.uid(), own.gid()) == (other.uid(), other.gid());
    let has_group = is_of_same || fchown(file, Some(other.uid()), Some(other.gid())).is_ok();
    let bits = if has_group {
        ACCESS_BITS
    } else {
        BITS_BUT_GROUP
    };
    let mode = other.permissions().mode() & bits;
    Ok(file.set_permissions(Permissions::from_mode(mode))?)
}
