//! An object that several readers have at once.
ghost use Rattle.std.specs.Prelude.{◌≡◌, IfOk};

use crate::object::Object;
use std::alloc::{AllocError, Global};
use std::marker::Model;
use std::sync::Arc;

/// An object in memory that all who have it share.
#[derive(Drop)]
pub struct SharedObject {
    object: Arc<Object, Global>,
}

impl Model for SharedObject {
    ghost use Rattle.std.specs.Arc.{arc_value};
    ghost use Rattle.git_objects.specs.declared.object.Object.{Object};

    ghost Value = { Object };

    ghost view = { λ s. arc_value s.object };
}

impl SharedObject {
    pub fn of(alloc: Global, object: Object) -> Result<SharedObject, AllocError>
        ensures { IfOk result (λ shared. shared ≡ object) }
    {
        let object = Arc::new(alloc, object)?;
        Ok(SharedObject { object })
    }

    /// This object for one more reader.
    pub fn share(&self) -> Result<SharedObject, AllocError>
        ensures { IfOk result (λ shared. shared ≡ self.now) }
    {
        let object = Arc::try_clone(&self.object)?;
        Ok(SharedObject { object })
    }

    pub fn get(&self) -> &Object
        ensures { result.now ≡ self.now }
    {
        &self.object
    }
}
