ghost use Rattle.tries_laws.specs.PrefixLaws.{ChoiceListsAreAll, ChoiceListsByPlace, ExtensionsAreAll, ListsAlongAreAll, ListsAlongByLength, PrefixesArePartial};

/// A prefix is a partial assignment.
pub fn prefixes_are_partial()
    ensures { PrefixesArePartial }
{}

/// The extensions of a prefix are all that there are.
pub fn extensions_are_all()
    ensures { ExtensionsAreAll }
{}

/// The lists of choices along the first few of some paths.
pub fn lists_along_are_all()
    ensures { ListsAlongAreAll }
{}

/// The lists of choices along all of some paths.
pub fn choice_lists_are_all()
    ensures { ChoiceListsAreAll }
{}

/// The list of choices of all of some paths at a place.
pub fn choice_lists_by_place()
    ensures { ChoiceListsByPlace }
{}

/// How many lists of choices there are along the first few of some paths.
pub fn lists_along_by_length()
    ensures { ListsAlongByLength }
{}
