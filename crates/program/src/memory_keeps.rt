//! The keeps of nodes whose library ends with the process.
ghost use Rattle.std.specs.Prelude.{◌≡◌, vec_len, IfOk};

use cluster::MemoryKeep;
use keep_folders::{FolderRefusal, FolderTerms, KeepFolder, KeptNode};
use std::alloc::{AllocError, Global};
use synod::Value;

/// A folder in memory: each time it is opened, its nodes are new.
#[derive(Drop)]
pub struct MemoryKeeps {
    alloc: Global,
}

impl MemoryKeeps {
    /// Does not allocate.
    pub fn new(alloc: Global) -> Self {
        MemoryKeeps { alloc }
    }
}

/// Returns `count` keeps of new nodes.
fn new_nodes<V: Value>(alloc: Global, count: u8) -> Result<Vec<KeptNode<MemoryKeep<V>>>, AllocError>
    ensures { IfOk result (λ nodes. vec_len nodes ≡ count) }
{
    let mut nodes = Vec::new(alloc);
    for _node in 0..count {
        let node = KeptNode {
            keep: MemoryKeep::new(alloc),
            damage: None,
        };
        nodes.push(node).map_err(AllocError::from)?;
    }
    Ok(nodes)
}

impl<V: Value + Send + 'static> KeepFolder<V> for MemoryKeeps {
    type Keep = MemoryKeep<V>;

    fn open(
        &mut self,
        _path: &str,
        terms: &FolderTerms,
    ) -> Result<Vec<KeptNode<MemoryKeep<V>>>, FolderRefusal> {
        Ok(new_nodes(self.alloc, terms.weights.count())?)
    }

    fn terms(&mut self, path: &str) -> Result<FolderTerms, FolderRefusal> {
        Err(FolderRefusal::Line(format!(in self.alloc; "{path}/library: missing or damaged")?))
    }

    fn bytes(&self, _node: u8) -> Result<u64, AllocError> {
        Ok(0)
    }
}
