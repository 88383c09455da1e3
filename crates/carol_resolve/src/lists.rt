ghost use Rattle.std.specs.Prelude.{◌≡◌, map, IfOk};
ghost use Rattle.carol_meaning.specs.Stores.{words};

use carol_names::Declares;
use carol_program::{Name, NameList};
use std::alloc::{AllocError, Global};

/// The names that items declare, as a list of names.
pub fn listed<T: Declares>(alloc: Global, items: &[T]) -> Result<NameList, AllocError>
    ensures { IfOk result (λ names. names ≡ words (map T.ident items.now)) }
{
    let mut names = NameList::new(alloc);
    for item in items {
        let name = Name::new(alloc, item.ident().word.bytes())?;
        names.push(name)?;
    }
    Ok(names)
}
