// What an element has in it.

ghost use Rattle.std.specs.Prelude.{◌≡◌, ◌+◌, ◌<◌, ◌≤◌, drop, length, map, nat_lt, option_copied, option_map};
ghost use Rattle.std.specs.Prelude.{slice_index_or};
ghost use Rattle.std.specs.List.{prefix_len, take_while};
ghost use Rattle.zk_names.specs.Documents.{element_of};
ghost use Rattle.zk_names.specs.Nodes.{as_node, child, is_child, node_of, number_in, text_in};

use crate::document::{Element, name_of};
use crate::text::number_in;

impl Element<'_> {
    /// Whether it has a name, and lies directly in an element that itself lies in so many.
    pub fn is_child(&self, depth: usize, name: &[u8]) -> bool
        ensures { result ≡ is_child depth name.now (element_of self.now) }
    {
        self.depth.saturating_sub(depth) == 1 && name_of(self.tag) == name
    }
}

/// An element, and those that lie in it.
#[derive(Clone, Copy, Drop)]
pub(crate) struct Section<'s, 'a> {
    pub element: Element<'a>,
    pub inside: &'s [Element<'a>],
}

/// How many elements from the first on lie deeper than a depth.
fn count_deeper(elements: &[Element<'_>], depth: usize) -> usize
    ensures value { result ≡ prefix_len (λ e. nat_lt depth e.depth) elements.now }
    ensures within { result ≤ length elements.now }
{
    for at in 0..elements.len() {
        if elements[at].depth <= depth {
            return at;
        }
    }
    elements.len()
}

/// Those elements that lie in one of a depth, of all that stand behind it.
fn inside_of<'s, 'a>(behind: &'s [Element<'a>], depth: usize) -> &'s [Element<'a>]
    ensures { map element_of result.now ≡ take_while (λ e. nat_lt depth e.depth) (map element_of behind.now) }
{
    &behind[..count_deeper(behind, depth)]
}

/// One of elements, with those that lie in it.
pub(crate) fn section_at<'s, 'a>(elements: &'s [Element<'a>], at: usize) -> Section<'s, 'a>
    requires { at < length elements.now }
    ensures element { result.element ≡ slice_index_or elements.now at result.element }
    ensures node { as_node result ≡ node_of (element_of result.element) (map element_of (drop (at + 1) elements.now)) }
{
    let element = elements[at];
    let inside = inside_of(&elements[at + 1..], element.depth);
    Section { element, inside }
}

impl<'s, 'a> Section<'s, 'a> {
    /// The first element of a name directly in it.
    pub fn child(&self, name: &[u8]) -> Option<Section<'s, 'a>>
        ensures { option_map as_node result ≡ child name.now (as_node self.now) }
    {
        for at in 0..self.inside.len() {
            if self.inside[at].is_child(self.element.depth, name) {
                return Some(section_at(self.inside, at));
            }
        }
        None
    }

    /// The text of the first element of a name directly in it.
    pub fn text(&self, name: &[u8]) -> Option<&'a [u8]>
        ensures { option_copied result ≡ text_in name.now (as_node self.now) }
    {
        match self.child(name) {
            Some(child) => Some(child.element.text),
            None => None,
        }
    }

    /// The number that is the text of the first element of a name directly in it.
    pub fn number(&self, name: &[u8]) -> Option<u32>
        ensures { result ≡ number_in name.now (as_node self.now) }
    {
        match self.text(name) {
            Some(text) => number_in(text),
            None => None,
        }
    }
}
