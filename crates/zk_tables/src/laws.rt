// Laws of the objects of a story.

ghost use Rattle.zk_tables.specs.Chain.{ChildrenAreChains};
ghost use Rattle.zk_tables.specs.Links.{LinksAreWritten};
ghost use Rattle.zk_tables.specs.Properties.{ListsDecide};
ghost use Rattle.zk_tables.specs.Tree.{ChainsDecide};
ghost use Rattle.zk_tables.specs.guards.TreeLaws.{RemovalsTakeOut, RemovalsAreMade, InsertionsPutFirst};
ghost use Rattle.zk_tables.specs.guards.TreeLaws.{InsertionsAreMade};
ghost use Rattle.zk_tables.specs.PropertyList.{ListsAreRead, AtMostOneList};
ghost use Rattle.zk_tables.specs.Dictionaries.{DictionariesAreTables, ReadDictionariesStand, DictionariesAreTheirBytes};
ghost use Rattle.zk_tables.specs.Dictionaries.{LookUpsAreFirst};
ghost use Rattle.zk_tables.specs.Halves.{KeysAreInOrder, HalvesFindTheFirst};
ghost use Rattle.zk_tables.specs.Tokens.{TokensAreWords, TokensAreDetermined};

/// A link that was written names the object, and all other links name what they named.
pub fn links_are_written()
    ensures { LinksAreWritten }
{}

/// What a walk along siblings finds is the chain of an object's children, a repeat or an object without an
/// entry: one of the three is there, and no two are.
pub fn children_are_chains()
    ensures { ChildrenAreChains }
{}

/// The chain of a parent's children decides what `remove` does with one of them.
pub fn chains_decide()
    ensures { ChainsDecide }
{}

/// An object that was removed has no parent and no sibling, the link that named it names the sibling that
/// it had, nothing else changes, and its parent's children are those that were, without it.
pub fn removals_take_out()
    ensures { RemovalsTakeOut }
{}

/// An object that is among its parent's children is removed, where the links that this writes lie in
/// dynamic memory; one that is not among them is refused.
pub fn removals_are_made()
    ensures { RemovalsAreMade }
{}

/// An object that was inserted is the destination's first child, before those that the destination had
/// once the object was taken out of its parent, and nothing else changes.
pub fn insertions_put_first()
    ensures { InsertionsPutFirst }
{}

/// An object that may be removed is inserted, where both objects have an entry and the links that this
/// writes lie in dynamic memory; else it is refused.
pub fn insertions_are_made()
    ensures { InsertionsAreMade }
{}

/// What is read at an address is the property list that the bytes spell there, or they leave data before a
/// zero byte: one of the two holds.
pub fn lists_are_read()
    ensures { ListsAreRead }
{}

/// An address has at most one property list.
pub fn at_most_one_list()
    ensures { AtMostOneList }
{}

/// The property list that the bytes of an object's property table spell decides each call of `properties`
/// that asks for a property.
pub fn lists_decide()
    ensures { ListsDecide }
{}

/// What a text is divided into are its words, all of them and in their order: its separators, and its runs of
/// other letters than spaces.
pub fn texts_are_divided()
    ensures words { TokensAreWords }
    ensures determined { TokensAreDetermined }
{}

/// What is read at an address is the dictionary that the bytes spell there, with all its entries; where they
/// spell none it is refused.
pub fn dictionaries_are_tables()
    ensures { DictionariesAreTables }
{}

/// A dictionary that was read in one memory is one of each memory of the same version that has the same bytes from its
/// address to its end, whatever length and static base that memory has.
pub fn dictionaries_are_their_bytes()
    ensures read { ReadDictionariesStand }
    ensures same { DictionariesAreTheirBytes }
{}

/// A look-up finds the first entry of all that begins with the key, and 0 where none does, as for each key of another
/// length than keys have.
pub fn look_ups_are_first()
    ensures { LookUpsAreFirst }
{}

/// Keys of one length do not fall from one to the next just where none is above a later one: after a front
/// that both have, its byte is nowhere the greater.
pub fn keys_are_in_order()
    ensures { KeysAreInOrder }
{}

/// In a dictionary that allows it a search by halves finds what a look-up finds, and compares at most 16 keys.
pub fn halves_find_the_first()
    ensures { HalvesFindTheFirst }
{}
