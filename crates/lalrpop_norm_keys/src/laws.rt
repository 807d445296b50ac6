//! What a table of rules says of a grammar between two passes.

ghost use Rattle.lalrpop_norm_keys.specs.TableLaws.{ArityStaysBetween, CallOrderStaysBetween, CallsStayBetween, DepthStaysBetween};
ghost use Rattle.lalrpop_norm_keys.specs.TableLaws.{FaultsStayBetween, KeysStayBetween, OrderStaysBetween, PremisesComeBack};

/// The law of tables of rules: where the features disable nothing, the calls by depth, those that are too deep, the keys, both in order
/// of first use, and what is told of conditions and of numbers of arguments are those of the grammar between two passes, whatever its
/// alternatives tell of their origins. What the search asks of such a table holds where it holds of that grammar.
pub fn tables_are_between()
    ensures calls { CallsStayBetween }
    ensures depth { DepthStaysBetween }
    ensures keys { KeysStayBetween }
    ensures order { OrderStaysBetween }
    ensures call_order { CallOrderStaysBetween }
    ensures faults { FaultsStayBetween }
    ensures arity { ArityStaysBetween }
    ensures premises { PremisesComeBack }
{}
