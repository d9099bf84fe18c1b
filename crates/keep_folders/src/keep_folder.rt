//! A folder with a keep for each node of a library.
ghost use Rattle.std.specs.Prelude.{◌≡◌, length, vec_len, IfOk};

use std::alloc::AllocError;
use synod::{Keep, Value, Weights};

/// What is fixed when a folder is made.
#[derive(Clone, Copy)]
pub struct FolderTerms {
    /// The weight of each node.
    pub weights: Weights,
    /// The greatest work that an entry may count; `None` for no limit.
    pub work_limit: Option<u64>,
}

/// Why a folder is not opened.
#[derive(Drop)]
pub enum FolderRefusal {
    /// One line, without its end, that says so.
    Line(String),
    /// An allocation failed.
    Memory,
}

impl From<AllocError> for FolderRefusal {
    fn from(_error: AllocError) -> FolderRefusal {
        FolderRefusal::Memory
    }
}

/// The keep of a node, and why the node is damaged, if it is: then each call of the keep fails.
#[derive(Drop)]
pub struct KeptNode<K> {
    pub keep: K,
    pub damage: Option<String>,
}

/// A folder with a keep for each node, of nodes that agree on values of the type `V`.
pub trait KeepFolder<V: Value> {
    type Keep: Keep<V> + Send + Drop + 'static;

    /// Opens the folder at a path, or makes it, and opens the keep of each node in order.
    ///
    /// Errors: the folder cannot be used, or was made with other terms; then nothing is changed.
    fn open(
        &mut self,
        path: &str,
        terms: &FolderTerms,
    ) -> Result<Vec<KeptNode<Self::Keep>>, FolderRefusal>
        ensures { IfOk result (λ nodes. vec_len nodes ≡ length terms.now.weights) };

    /// Returns the terms with which the folder at a path was made.
    ///
    /// Errors: there is no such folder, or it cannot be read.
    fn terms(&mut self, path: &str) -> Result<FolderTerms, FolderRefusal>;

    /// Returns how many bytes the files of a node of the open folder have.
    ///
    /// Errors: an allocation fails.
    fn bytes(&self, node: u8) -> Result<u64, AllocError>;
}
