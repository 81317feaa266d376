//! Places in a configuration.
ghost use Rattle.std.specs.Prelude.{◌≡◌, option_map};
ghost use Rattle.serde_json.specs.View.{view};
ghost use Rattle.fault_view.specs.Flaws.{is_array_at, is_member_at, is_needed_at, is_text_at};
ghost use Rattle.fault_view.specs.Flaws.{part_of};

use serde_json::Value;

/// A part of a configuration: all of it, an element of one of its arrays, counted from 0, or the
/// object of its floors.
#[derive(Clone, Copy, Debug, PartialEq, Eq)]
pub enum FlawPlace {
    /// All of it.
    Whole,
    /// The element of `relationships` with this number.
    Relationship(usize),
    /// The element of `seeds` with this number.
    Seed(usize),
    /// The object `floors`.
    Floors,
}

impl FlawPlace {
    /// Whether what is there may have a member of this name.
    pub(crate) fn has_member(self, name: &str) -> bool
        ensures { result ≡ is_member_at self name.now }
    {
        match self {
            FlawPlace::Whole => self.needs_member(name) || name == "floors",
            FlawPlace::Relationship(_) | FlawPlace::Seed(_) => self.needs_member(name),
            FlawPlace::Floors => true,
        }
    }

    /// Whether it has to have it.
    pub(crate) fn needs_member(self, name: &str) -> bool
        ensures { result ≡ is_needed_at self name.now }
    {
        match self {
            FlawPlace::Whole => name == "relationships" || name == "seeds",
            FlawPlace::Relationship(_) => is_of_relationship(name),
            FlawPlace::Seed(_) => name == "bundle" || name == "domain",
            FlawPlace::Floors => false,
        }
    }

    /// Whether that member is a text.
    pub(crate) fn has_text(self, name: &str) -> bool
        ensures { result ≡ is_text_at self name.now }
    {
        match self {
            FlawPlace::Whole | FlawPlace::Floors => false,
            FlawPlace::Relationship(_) => is_of_relationship(name),
            FlawPlace::Seed(_) => name == "domain",
        }
    }

    /// Whether it is an array.
    pub(crate) fn has_array(self, name: &str) -> bool
        ensures { result ≡ is_array_at self name.now }
    {
        match self {
            FlawPlace::Whole => name == "relationships" || name == "seeds",
            FlawPlace::Relationship(_) | FlawPlace::Seed(_) | FlawPlace::Floors => false,
        }
    }

    /// The names of the members that it has to have.
    pub(crate) fn member_names(self) -> &'static [&'static str] {
        match self {
            FlawPlace::Whole => WHOLE.as_slice(),
            FlawPlace::Relationship(_) => RELATIONSHIP.as_slice(),
            FlawPlace::Seed(_) => SEED.as_slice(),
            FlawPlace::Floors => FLOORS.as_slice(),
        }
    }

    /// What is there.
    pub(crate) fn part_in<'a>(self, config: &'a Value) -> Option<&'a Value>
        ensures { option_map (λ v. view v.now) result ≡ part_of (view config.now) self }
    {
        match self {
            FlawPlace::Whole => Some(config),
            FlawPlace::Relationship(number) => config.get("relationships")?.get(number),
            FlawPlace::Seed(number) => config.get("seeds")?.get(number),
            FlawPlace::Floors => config.get("floors"),
        }
    }
}

static WHOLE: [&str; 2] = ["relationships", "seeds"];

static RELATIONSHIP: [&str; 4] = ["domain", "endpoint", "profile", "url"];

static SEED: [&str; 2] = ["bundle", "domain"];

static FLOORS: [&str; 0] = [];

fn is_of_relationship(name: &str) -> bool
    ensures { result ≡ is_needed_at (FlawPlace.Relationship 0) name.now }
{
    name == "domain" || name == "endpoint" || name == "profile" || name == "url"
}
