ghost use Rattle.std.specs.Prelude.{◌≡◌, IfOk};

use sqlite_items::Items;
use std::alloc::Global;
use txs_values::{NoMemory, Text};

/// A pair of host and port.
#[derive(Debug, Drop)]
pub struct End {
    pub host: Text,
    pub port: u16,
}

/// Ends by number.
pub type EndList = Items<End>;

/// The ends to be dialled or, where `listen` is true, to be waited for.
#[derive(Debug, Drop)]
pub struct Ends {
    pub listen: bool,
    pub list: EndList,
}

impl Ends {
    pub fn copy(&self, alloc: Global) -> Result<Ends, NoMemory>
        ensures { IfOk result (λ ends. ends ≡ self.now) }
    {
        let mut list = Items::new(alloc);
        for end in self.list.as_slice() {
            let host = end.host.copy(alloc)?;
            list.push(End {
                host,
                port: end.port,
            })?;
        }
        Ok(Ends {
            listen: self.listen,
            list,
        })
    }
}
