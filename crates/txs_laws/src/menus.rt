//! Laws on menus.
ghost use Rattle.txs_laws.specs.Menus.{MenuIsRules};

/// The items of a menu are the steps of its term, and every step is such an item.
pub fn items_are_steps()
    ensures { MenuIsRules }
{}
