//! Orders.
ghost use Rattle.std.specs.Prelude.{◌≡◌, string_bytes, IfOk};
ghost use Rattle.claim_text.specs.OrderText.{is_plain, relation_text, order_text};

use crate::numbers::noun;
use crate::part::{Part, Read, Scope, Written};
use crate::reader::Reader;
use claims::{Deed, Order, Relation};

impl Reader<'_> {
    fn moments(&mut self) -> Read<Relation> {
        let moments = self.number()?;
        self.take_either(" moments", " moment")?;
        if self.take_either(" after ", " before ")? {
            Ok(Relation::Within(moments))
        } else {
            Ok(Relation::Followed(moments))
        }
    }

    /// Reads an order, if there is one. It is denied if it is turned round.
    pub fn order(&mut self, is_turned: bool) -> Read<Option<Order>> {
        let (relation, is_so) = if self.take(" not before every line ") {
            (Relation::NotBefore, true)
        } else if self.take(" before every line ") {
            (Relation::NotBefore, false)
        } else {
            let relation = if self.take(" after ") {
                Relation::After
            } else if self.take(" within ") {
                self.moments()?
            } else {
                return Ok(None);
            };
            (relation, self.take_either("some line ", "no line ")?)
        };
        let event = Deed::read(self)?;
        Ok(Some(Order {
            event,
            relation,
            is_so: is_so != is_turned,
        }))
    }
}

/// Returns whether the text of an order has no negation.
pub fn is_plain(order: &Order) -> bool
    ensures value { result ≡ is_plain order.now }
{
    match order.relation {
        Relation::NotBefore => !order.is_so,
        Relation::After | Relation::Within(_) | Relation::Followed(_) => order.is_so,
    }
}

fn write_relation(scope: Scope<'_>, relation: Relation, is_plain: bool) -> Written
    ensures written { IfOk result (λ t. string_bytes t ≡ relation_text relation is_plain) }
{
    let some = if is_plain { "some" } else { "no" };
    match relation {
        Relation::After => format!(in scope.alloc; " after {some} line "),
        Relation::NotBefore if is_plain => String::from_str(scope.alloc, " before every line "),
        Relation::NotBefore => String::from_str(scope.alloc, " not before every line "),
        Relation::Within(moments) => {
            let noun = noun(moments, "moment", "moments");
            format!(in scope.alloc; " within {moments} {noun} after {some} line ")
        }
        Relation::Followed(moments) => {
            let noun = noun(moments, "moment", "moments");
            format!(in scope.alloc; " within {moments} {noun} before {some} line ")
        }
    }
}

/// Writes an order, as it is or turned round.
pub fn write_order(scope: Scope<'_>, order: &Order, is_plain: bool) -> Written
    ensures written { IfOk result (λ t. string_bytes t
        ≡ order_text scope.entry.names.now scope.entry.own order.now is_plain) }
{
    let relation = write_relation(scope, order.relation, is_plain)?;
    let event = order.event.write(scope)?;
    format!(in scope.alloc; "{relation}{event}")
}
