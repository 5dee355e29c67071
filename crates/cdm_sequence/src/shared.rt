//! Lists that several values have in common.
ghost use Rattle.std.specs.Prelude.{◌≡◌, IfOk};

use std::alloc::{AllocError, Global};
use std::marker::Model;
use std::sync::Arc;

/// A list that contracts see as its items alone. It may be shared with others of its kind, so that the list once more costs
/// the same for many items as for few.
#[derive(Debug, Drop)]
pub struct SharedList<T: Drop> {
    items: Arc<Vec<T>>,
}

impl<T: Drop> Model for SharedList<T> {
    ghost use Rattle.std.specs.Prelude.{List};
    ghost use Rattle.std.specs.Arc.{arc_value};

    ghost Value = { List T };

    ghost view = { λ l. (arc_value l.items).items };
}

impl<T: Drop> SharedList<T> {
    /// The list of these items.
    pub fn new(alloc: Global, items: Vec<T>) -> Result<SharedList<T>, AllocError>
        ensures { IfOk result (λ l. l ≡ items.items) }
    {
        let items = Arc::new(alloc, items)?;
        Ok(SharedList { items })
    }

    /// The items in order.
    pub fn as_slice(&self) -> &[T]
        ensures { result.now ≡ self.now }
    {
        self.items.as_slice()
    }

    /// The same list once more, which shares the items.
    pub fn share(&self) -> Result<SharedList<T>, AllocError>
        ensures { IfOk result (λ l. l ≡ self.now) }
    {
        let items = Arc::try_clone(&self.items)?;
        Ok(SharedList { items })
    }
}
