//! The image of what a root reaches. It sees a graph through one trait.
ghost use Rattle.std.specs.Prelude.{◌≡◌, ◌∷◌, [], ℕ, ◌<◌, List, Option, Some, length, slice_get, IsSome, OnOk, IfOk};
ghost use Rattle.bmx_types.specs.declared.values.Val.{Val};
ghost use Rattle.bmx_image.specs.Gathering.{CanGather, IsGathered};
ghost use Rattle.bmx_image.specs.Inside.Mentions.{GoesOn, IsMention, IsPlaced, told_field, told_fields};

use crate::images::{Image, ImageField, ImageObject};
use bmx_types::{BunchNo, Items, Name, NoMemory, Val};
use std::alloc::{AllocError, AllocFailed, Global};
use std::collections::BTreeMap;

/// How many objects an image has at most.
const MOST_OBJECTS: usize = 20_000;

/// A graph of objects by name: the bunch of each, and its fields.
pub trait Fields {
    // The bunch of each name that has an object.
    ghost bunches: { Self → ℕ → Option ℕ };

    // The fields of each such object.
    ghost fields: { Self → ℕ → List Val };

    /// The bunch of an object, None where there is none of that name.
    fn bunch(&self, name: Name) -> Option<BunchNo>
        ensures { result ≡ bunches self.now name };

    /// How many fields it has.
    fn size(&self, name: Name) -> u8
        requires { IsSome (bunches self.now name) }
        ensures { result ≡ length (fields self.now name) };

    /// Its i-th field, from 0.
    fn field(&self, name: Name, i: u8) -> Val
        requires there { IsSome (bunches self.now name) }
        requires within { i < length (fields self.now name) }
        ensures { slice_get (fields self.now name) i ≡ Some result };
}

/// Why no image was gathered.
#[derive(Clone, Copy, Debug, PartialEq, Eq)]
pub enum GatherError {
    NoMemory,
    /// An object reached within the bunch refers into another one.
    Crosses,
    /// More than 20,000 objects are reached within the bunch.
    Large,
}

impl From<NoMemory> for GatherError {
    ghost use Rattle.std.specs.Prelude.{◌≡◌};
    ghost use Rattle.bmx_image.specs.declared.gathering.GatherError.TheVariants as error;

    ghost from_gives = { λ _ e. e ≡ error.NoMemory };

    fn from(_error: NoMemory) -> GatherError {
        GatherError::NoMemory
    }
}

impl From<AllocError> for GatherError {
    ghost use Rattle.std.specs.Prelude.{◌≡◌};
    ghost use Rattle.bmx_image.specs.declared.gathering.GatherError.TheVariants as error;

    ghost from_gives = { λ _ e. e ≡ error.NoMemory };

    fn from(_error: AllocError) -> GatherError {
        GatherError::NoMemory
    }
}

impl<T: Drop> From<AllocFailed<T>> for GatherError {
    ghost use Rattle.std.specs.Prelude.{◌≡◌};
    ghost use Rattle.bmx_image.specs.declared.gathering.GatherError.TheVariants as error;

    ghost from_gives = { λ _ e. e ≡ error.NoMemory };

    fn from(_error: AllocFailed<T>) -> GatherError {
        GatherError::NoMemory
    }
}

/// The image of an anchor and of all that it reaches within its bunch. A reference into another bunch
/// is told before there are too many objects. `n log n` in the number of objects reached and their
/// fields.
pub fn gather<G: Fields>(alloc: Global, graph: &G, anchor: Name) -> Result<Image, GatherError>
    requires { CanGather (G.bunches graph.now) (G.fields graph.now) anchor }
    ensures { IsGathered (G.bunches graph.now) (G.fields graph.now) anchor result }
{
    let mut mentions = Mentions::new(alloc, graph.bunch(anchor));
    mentions.mention(anchor)?;
    let mut objects = Items::new(alloc);
    while let Some(name) = mentions.get(objects.len()) {
        let fields = mentions.fields(alloc, graph, name)?;
        objects.push(ImageObject {
            fields: Items::from_vec(fields),
        })?;
    }
    if objects.len() > MOST_OBJECTS {
        return Err(GatherError::Large);
    }
    Ok(Image { objects })
}

/// The names mentioned so far.
#[derive(Drop)]
struct Mentions {
    /// The bunch that is gathered.
    home: Option<BunchNo>,
    /// In the order of first mention.
    names: Vec<Name>,
    /// The place of each name in that order, by its word.
    places: BTreeMap<u64, u32>,
}

impl Mentions {
    /// No names.
    fn new(alloc: Global, home: Option<BunchNo>) -> Mentions
        ensures placed { IsPlaced result }
        ensures none { result.names.items ≡ [] }
        ensures home { result.home ≡ home }
    {
        Mentions {
            home,
            names: Vec::new(alloc),
            places: BTreeMap::new(alloc),
        }
    }

    /// The name at a place.
    fn get(&self, i: usize) -> Option<Name>
        ensures { result ≡ slice_get self.now.names.items i }
    {
        self.names.get(i).copied()
    }

    /// What tells the values of an object's fields.
    fn fields<G: Fields>(
        &mut self,
        alloc: Global,
        graph: &G,
        name: Name,
    ) -> Result<Vec<ImageField>, GatherError>
        requires placed { IsPlaced self.old }
        requires some { 0 < length self.old.names.items }
        requires there { IsSome (G.bunches graph.now name) }
        ensures { GoesOn (G.bunches graph.now) (G.fields graph.now name) self.old self.new (told_fields result) }
    {
        let size = graph.size(name);
        let mut fields = Vec::with_capacity(alloc, size as usize)?;
        for i in 0..size {
            fields.push(self.field(graph, graph.field(name, i))?)?;
        }
        Ok(fields)
    }

    /// What tells a value.
    fn field<G: Fields>(&mut self, graph: &G, value: Val) -> Result<ImageField, GatherError>
        requires placed { IsPlaced self.old }
        requires some { 0 < length self.old.names.items }
        ensures { GoesOn (G.bunches graph.now) (value ∷ []) self.old self.new (told_field result) }
    {
        match value {
            Val::Null => Ok(ImageField::Null),
            Val::Int(number) => Ok(ImageField::Int(number)),
            Val::Ref(name) => {
                if graph.bunch(name) != self.home {
                    return Err(GatherError::Crosses);
                }
                Ok(ImageField::Ref(self.mention(name)?))
            }
        }
    }

    /// The place of a name, which is the next one where it wasn't mentioned before. Logarithmic in the
    /// number of names. There is no room for 2^32 of them.
    fn mention(&mut self, name: Name) -> Result<u32, NoMemory>
        requires { IsPlaced self.old }
        ensures { IfOk result (λ i. IsMention self.old self.new name i) }
    {
        let word = name.word();
        if let Some(place) = self.places.get(&word) {
            return Ok(*place);
        }
        let place = self.names.len();
        if place > u32::MAX as usize {
            return Err(NoMemory);
        }
        self.names.push(name)?;
        self.places.insert(word, place as u32)?;
        Ok(place as u32)
    }
}
