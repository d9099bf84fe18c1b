//! The command `store`, and what is found as a folder of nodes is opened.
ghost use Rattle.std.specs.Prelude.{◌≡◌, IfOk, map, option_map, option_and_then, slice_get};
ghost use Rattle.std.specs.Prelude.{string_bytes};

use keep_folders::{FolderRefusal, KeepFolder, KeptNode, push_damages, push_stored};
use questions::{Fault, print};
use std::alloc::{AllocError, Global};
use std::io::Write;
use world::Carried;

/// What was found as a folder was opened.
#[derive(Drop)]
pub struct StoredNodes {
    /// How many nodes have files: all, or none without `--store`.
    pub file_count: u8,
    /// Why a node is damaged, by node.
    pub damages: Vec<Option<String>>,
}

impl StoredNodes {
    /// Returns why a node is damaged, if it is.
    pub fn damage(&self, node: u8) -> Option<&str>
        ensures { option_map (λ s. s.now) result
            ≡ option_and_then (λ d. option_map (λ s. string_bytes s) d) (slice_get self.now.damages.items node) }
    {
        match self.damages.get(usize::from(node)) {
            Some(Some(damage)) => Some(damage.as_str()),
            _ => None,
        }
    }
}

/// How many bytes the files of each node have.
pub trait FileSizes {
    /// Returns how many bytes the files of a node have.
    ///
    /// Errors: an allocation fails.
    fn bytes(&self, node: u8) -> Result<u64, AllocError>;
}

/// The files of the nodes of an open folder.
#[derive(Drop)]
pub struct FolderSizes<'a, F: KeepFolder<Carried>> {
    pub folder: &'a F,
}

impl<F: KeepFolder<Carried>> FileSizes for FolderSizes<'_, F> {
    fn bytes(&self, node: u8) -> Result<u64, AllocError> {
        self.folder.bytes(node)
    }
}

/// Returns the keeps of nodes, and why each is damaged, if it is.
pub fn parts<K: Drop>(
    alloc: Global,
    stored: Vec<KeptNode<K>>,
) -> Result<(Vec<K>, Vec<Option<String>>), AllocError>
    ensures keeps { IfOk result (λ parts. parts.0.items ≡ map (λ node. node.keep) stored.items) }
    ensures damages { IfOk result (λ parts. parts.1.items ≡ map (λ node. node.damage) stored.items) }
{
    let mut keeps = Vec::new(alloc);
    let mut damages = Vec::new(alloc);
    for node in stored {
        let KeptNode { keep, damage } = node;
        keeps.push(keep).map_err(AllocError::from)?;
        damages.push(damage).map_err(AllocError::from)?;
    }
    Ok((keeps, damages))
}

/// Prints why nodes are damaged, a line for each that is. Ignores a failed write.
///
/// Errors: an allocation fails.
pub fn tell_damages<E: Write>(
    alloc: Global,
    stderr: &mut E,
    path: &str,
    stored: &StoredNodes,
) -> Result<(), AllocError> {
    let mut text = Vec::new(alloc);
    push_damages(&mut text, path, stored.damages.as_slice())?;
    if !text.is_empty() {
        let _ = print(stderr, text.as_slice());
    }
    Ok(())
}

/// Prints a line for each node of a folder that nothing has open (`push_stored`). The status is 0 if
/// all are good, and 2 if the folder cannot be used.
///
/// Errors: an allocation or a write fails.
pub fn print_stored<O: Write, E: Write, F: KeepFolder<Carried>>(
    alloc: Global,
    path: &str,
    output: &mut O,
    stderr: &mut E,
    folder: &mut F,
) -> Result<u8, Fault> {
    let mut text = Vec::new(alloc);
    match push_stored::<Carried, F>(&mut text, path, folder) {
        Ok(are_good) => {
            print(output, text.as_slice())?;
            Ok(if are_good { 0 } else { 1 })
        }
        Err(refusal) => print_refusal(stderr, refusal),
    }
}

/// Prints why a folder cannot be used, and returns the status of that.
///
/// Errors: an allocation or a write fails.
pub fn print_refusal<E: Write>(stderr: &mut E, refusal: FolderRefusal) -> Result<u8, Fault> {
    match refusal {
        FolderRefusal::Memory => Err(Fault::Memory(AllocError)),
        FolderRefusal::Line(line) => {
            writeln!(stderr, "{}", line.as_str())?;
            Ok(2)
        }
    }
}
