//! The places of an outside in memory.
ghost use Rattle.std.specs.Prelude.{◌≡◌, ℕ, List, Option, OnOk, OnErr, IfSome, Some, None};
ghost use Rattle.std.specs.Prelude.{position, bytes_eq, option_copied, string_bytes};
ghost use Rattle.outside.specs.Names.Outside.{Changes, lent_from, put_back_at};
ghost use Rattle.outside.specs.Names.Places.{standing, object_there, PutsUnder, AllNamed};

use crate::names::named::Named;
use std::alloc::{AllocError, Global};
use std::marker::Model;

/// A name, and the object that stands under it. None: it is handed out.
#[derive(Drop)]
pub(crate) struct Place<X> {
    name: String,
    object: Option<X>,
}

impl<X> Model for Place<X> {
    ghost Value = { List ℕ × Option X };

    ghost view = { λ p. (string_bytes p.name, p.object) };
}

impl<X> Place<X> {
    fn has_name(&self, name: &str) -> bool
        ensures { result ≡ bytes_eq name.now self.now.0 }
    {
        name == self.name.as_str()
    }

    fn object(&self) -> Option<&X>
        ensures { option_copied result ≡ self.now.1 }
    {
        self.object.as_ref()
    }

    fn hand_out(&mut self) -> Option<X>
        ensures object { result ≡ self.old.1 }
        ensures empty { self.new ≡ (self.old.0, None) }
    {
        self.object.take()
    }

    fn put_back(&mut self, object: X)
    where
        X: Drop,
        ensures { self.new ≡ (self.old.0, Some object) }
    {
        self.object = Some(object);
    }
}

// The first place with the name.
fn find<X>(places: &[Place<X>], name: &str) -> Option<usize>
    ensures { result ≡ position (λ place. bytes_eq name.now place.0) places.now }
{
    places.iter().position(|place| place.has_name(name))
}

/// What stands under the name.
pub(crate) fn look<'a, X>(places: &'a [Place<X>], name: &str) -> Option<&'a X>
    ensures { option_copied result ≡ object_there (standing places.now name.now) }
{
    let at = find(places, name)?;
    places[at].object()
}

/// Hands out what stands under the name.
pub(crate) fn open<X: Named>(places: &mut Vec<Place<X>>, name: &str) -> Option<X>
    ensures object { result ≡ object_there (standing places.old.items name.now) }
    ensures lent { Changes lent_from (standing places.old.items)
        (standing places.new.items) name.now }
    ensures named { AllNamed X.name_of places.old.items → AllNamed X.name_of places.new.items }
    ensures name { AllNamed X.name_of places.old.items
        → IfSome result (λ object. X.name_of object ≡ name.now) }
{
    let at = find(places, name)?;
    places[at].hand_out()
}

/// Puts the object back under its name, if the name is there.
pub(crate) fn close<X: Named + Drop>(places: &mut Vec<Place<X>>, object: X)
    ensures closes { Changes (λ s. put_back_at s object) (standing places.old.items)
        (standing places.new.items) (X.name_of object) }
    ensures named { AllNamed X.name_of places.old.items → AllNamed X.name_of places.new.items }
{
    if let Some(at) = find(places, object.place_name()) {
        places[at].put_back(object);
    }
}

/// Puts the object under the name, in the place of what is there.
pub(crate) fn put<X: Named + Drop>(
    alloc: Global,
    places: &mut Vec<Place<X>>,
    name: &str,
    object: X,
) -> Result<(), AllocError>
    ensures told { OnOk result (PutsUnder places.old.items places.new.items name.now object) }
    ensures err { OnErr result (places.new.items ≡ places.old.items) }
    ensures named { OnOk result (AllNamed X.name_of places.old.items → X.name_of object ≡ name.now
        → AllNamed X.name_of places.new.items) }
{
    match find(places, name) {
        Some(at) => places[at].put_back(object),
        None => places.push(Place {
            name: String::from_str(alloc, name)?,
            object: Some(object),
        })?,
    }
    Ok(())
}
