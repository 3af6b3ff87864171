//! The aux-items that this server knows.
ghost use Rattle.std.specs.Prelude.{◌≡◌, Some, option_map, is_some};
ghost use Rattle.kom_types.specs.AuxItems as Items;
ghost use Rattle.aux_items.specs.Kinds.{places_meant, adding_meant, kind_meant};

use kom_types::{Object, aux_tags};

/// On what an item may stand.
#[derive(Clone, Copy)]
pub(crate) enum Places {
    Texts,
    /// Conferences and letterboxes.
    Conferences,
    Letterboxes,
    All,
}

/// Who may add an item.
#[derive(Clone, Copy)]
pub(crate) enum Adding {
    /// Who owns the object.
    Owner,
    /// Whoever reads the object.
    Reader,
    /// Of a text, whoever reads it, and else who owns the object.
    ReaderOfText,
}

/// How many items of a tag an object may have.
#[derive(Clone, Copy)]
pub(crate) enum Count {
    One,
    OnePerCreator,
    Any,
}

/// A predefined aux-item.
#[derive(Drop)]
pub(crate) struct AuxKind {
    pub tag: u32,
    pub places: Places,
    pub adding: Adding,
    pub count: Count,
}

/// Whether the server knows a tag.
pub fn is_known(tag: u32) -> bool
    ensures { result ≡ is_some (Items.kind_of tag) }
{
    kind_of(tag).is_some()
}

/// What the server knows of a tag. (Protocol A, "Predefined Aux-Items".)
pub(crate) fn kind_of(tag: u32) -> Option<AuxKind>
    ensures { option_map kind_meant result ≡ Items.kind_of tag }
{
    match tag {
        aux_tags::CONTENT_TYPE => kind(tag, Places::Texts, Adding::Owner, Count::One),
        aux_tags::FAST_REPLY => kind(tag, Places::Texts, Adding::Reader, Count::Any),
        aux_tags::CROSS_REFERENCE => kind(tag, Places::All, Adding::ReaderOfText, Count::Any),
        aux_tags::NO_COMMENTS => kind(tag, Places::Texts, Adding::Owner, Count::One),
        aux_tags::PERSONAL_COMMENT => kind(tag, Places::Texts, Adding::Owner, Count::One),
        aux_tags::REQUEST_CONFIRMATION => kind(tag, Places::Texts, Adding::Owner, Count::One),
        aux_tags::READ_CONFIRM => kind(tag, Places::Texts, Adding::Reader, Count::OnePerCreator),
        aux_tags::REDIRECT => kind(tag, Places::Letterboxes, Adding::Owner, Count::One),
        aux_tags::ALTERNATE_NAME => kind(tag, Places::Conferences, Adding::Owner, Count::Any),
        aux_tags::E_MAIL_ADDRESS => kind(tag, Places::Conferences, Adding::Owner, Count::Any),
        aux_tags::FAQ_TEXT => kind(tag, Places::Conferences, Adding::Owner, Count::Any),
        aux_tags::CREATING_SOFTWARE => kind(tag, Places::Texts, Adding::Owner, Count::One),
        _ => None,
    }
}

fn kind(tag: u32, places: Places, adding: Adding, count: Count) -> Option<AuxKind>
    ensures { result ≡ Some (record {
      tag = tag;
      places = places;
      adding = adding;
      count = count;
    }) }
{
    Some(AuxKind {
        tag,
        places,
        adding,
        count,
    })
}

impl Places {
    /// Whether an object is among them.
    pub(crate) fn include(self, on: Object) -> bool
        ensures { result ≡ places_meant self on }
    {
        match self {
            Places::Texts => on == Object::Text,
            Places::Conferences => on != Object::Text,
            Places::Letterboxes => on == Object::Letterbox,
            Places::All => true,
        }
    }
}

impl Adding {
    /// Whether a person who reads an object may add an item to it.
    pub(crate) fn allows(self, on: Object, owns: bool) -> bool
        ensures { result ≡ Items.may_add (adding_meant self) on owns }
    {
        match self {
            Adding::Owner => owns,
            Adding::Reader => true,
            Adding::ReaderOfText => owns || on == Object::Text,
        }
    }
}
