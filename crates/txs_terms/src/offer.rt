ghost use Rattle.std.specs.Prelude.{◌≡◌, IfOk};

use crate::expr::{Expr, copy_expr};
use sqlite_items::Items;
use std::alloc::Global;
use txs_values::{NoMemory, Text};

/// `! e` or `? x`.
#[derive(Drop)]
pub enum Position {
    Give(Expr),
    Take(Text),
}

/// The positions of an offer, in order.
pub type Positions = Items<Position>;

/// A channel with what is offered at each of its positions.
#[derive(Drop)]
pub struct Offer {
    pub channel: u32,
    pub positions: Positions,
}

/// The offers of a prefix, in the order of the file.
pub type Offers = Items<Offer>;

fn copy_position(alloc: Global, position: &Position) -> Result<Position, NoMemory>
    ensures { IfOk result (λ p. p ≡ position.now) }
{
    match position {
        Position::Give(expr) => Ok(Position::Give(copy_expr(alloc, expr)?)),
        Position::Take(name) => Ok(Position::Take(name.copy(alloc)?)),
    }
}

fn copy_positions(alloc: Global, positions: &[Position]) -> Result<Positions, NoMemory>
    ensures { IfOk result (λ ps. ps ≡ positions.now) }
{
    let mut copies = Items::new(alloc);
    for position in positions {
        copies.push(copy_position(alloc, position)?)?;
    }
    Ok(copies)
}

fn copy_offer(alloc: Global, offer: &Offer) -> Result<Offer, NoMemory>
    ensures { IfOk result (λ o. o ≡ offer.now) }
{
    Ok(Offer {
        channel: offer.channel,
        positions: copy_positions(alloc, offer.positions.as_slice())?,
    })
}

/// A copy of each.
pub fn copy_offers(alloc: Global, offers: &[Offer]) -> Result<Offers, NoMemory>
    ensures { IfOk result (λ os. os ≡ offers.now) }
{
    let mut copies = Items::new(alloc);
    for offer in offers {
        copies.push(copy_offer(alloc, offer)?)?;
    }
    Ok(copies)
}
