ghost use Rattle.std.specs.Prelude.{◌≡◌};

use crate::link::Link;

/// The kinds of rings that a slot stands in: the order of insertion, a chain, the stack or the free slots.
#[derive(Clone, Copy, Debug)]
pub enum Kind {
    Order,
    Chain,
    Pile,
}

/// What a slot holds.
#[derive(Debug, Drop)]
pub struct Held<T> {
    pub live: bool,
    pub bucket: u8,
    pub value: Option<T>,
}

/// A slot with its links in each kind of ring. What a walk reads stands close together at the front: this saves an
/// eighth of the time of a long one.
#[derive(Debug, Drop)]
pub struct Slot<T> {
    pub order: Link,
    pub chain: Link,
    pub pile: Link,
    pub held: Held<T>,
}

impl<T> Slot<T> {
    ghost use Rattle.zy_slots.specs.Columns.{no_slot, link_of, with_link};

    /// A slot that holds nothing.
    pub fn empty() -> Slot<T>
        ensures { result ≡ no_slot }
    {
        Slot {
            held: Held {
                value: None,
                bucket: 0,
                live: false,
            },
            order: Link::none(),
            chain: Link::none(),
            pile: Link::none(),
        }
    }

    /// The link of a kind.
    pub fn link(&self, kind: Kind) -> Link
        ensures { result ≡ link_of kind self.now }
    {
        match kind {
            Kind::Order => self.order,
            Kind::Chain => self.chain,
            Kind::Pile => self.pile,
        }
    }

    /// Sets the link of a kind.
    pub fn set_link(&mut self, kind: Kind, link: Link)
        ensures { self.new ≡ with_link kind link self.old }
    {
        match kind {
            Kind::Order => self.order = link,
            Kind::Chain => self.chain = link,
            Kind::Pile => self.pile = link,
        }
    }
}
