//! The law of new numbers. Its function does nothing: its contract is the law, over every graph and every order.
ghost use Rattle.renumbering.specs.Laws.{LabellingsComeBack};

/// The canonical hub labelling by the new numbers is, row by row, that by the old ones.
pub fn labellings_come_back()
    ensures { LabellingsComeBack }
{}
