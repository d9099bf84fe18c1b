//! Whether a node may vote, by what is found of its database file.
ghost use Rattle.std.specs.Prelude.{◌≡◌};
ghost use Rattle.keep_folders.specs.FoundFiles.{may_vote};

/// Returns whether a node may vote whose database file has this many bytes (`None` if it is
/// missing), and whose witness tells this many changes. In a new folder it may; else an acceptor
/// that lost its file has forgotten what it promised.
pub fn may_vote(is_new_folder: bool, file_bytes: Option<u64>, changes: u64) -> bool
    ensures { result ≡ may_vote is_new_folder file_bytes changes }
{
    match file_bytes {
        _ if is_new_folder => true,
        Some(bytes) => changes == 0 || bytes > 0,
        None => false,
    }
}
