//! The list of entities.

ghost use Rattle.std.specs.Prelude.{◌≡◌, ◌<◌, Some, length, slice_get};
ghost use Rattle.std.specs.Option.{option_copied};

use crate::entity::Entity;
use cxx_base::EntityNo;
use std::marker::Model;

/// The entities of a program. Contracts see the list. The global namespace comes first, then `std`, `std::meta` and the names that are
/// declared in them before all pieces, in the order of their numbers as names, then those of the text in order of their first declarations.
pub struct Entities {
    entities: Vec<Entity>,
}

impl Drop for Entities {
    fn drop(self) {
        let Entities { entities: _ } = self;
    }
}

impl Model for Entities {
    ghost use Rattle.std.specs.Prelude.{List};
    ghost use Rattle.program_tables.specs.declared.entity.Entity.{Entity};

    ghost Value = { List Entity };

    ghost view = { λ e. e.entities.items };
}

impl Entities {
    /// The entities of a `Vec`, without a copy.
    pub fn from_vec(entities: Vec<Entity>) -> Entities
        ensures { result ≡ entities.items }
    {
        Entities { entities }
    }

    /// The entity of a number of the program.
    pub fn at(&self, entity: EntityNo) -> &Entity
        requires { entity.0 < length self.now }
        ensures { slice_get self.now entity.0 ≡ Some result.now }
    {
        &self.entities[entity.0 as usize]
    }

    /// The entity of a number, if there is one.
    pub fn get(&self, entity: EntityNo) -> Option<&Entity>
        ensures { option_copied result ≡ slice_get self.now entity.0 }
    {
        self.entities.get(entity.0 as usize)
    }

    /// How many there are.
    pub fn len(&self) -> usize
        ensures { result ≡ length self.now }
    {
        self.entities.len()
    }
}
