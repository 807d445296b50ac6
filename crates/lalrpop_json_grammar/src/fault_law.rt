//! The law that reading a grammar or a tree tells the first fault of its JSON value.

ghost use Rattle.std.specs.Prelude.{[], ◌∷◌};
ghost use Rattle.lalrpop_json_values.specs.declared.word.Word.{Word};
ghost use Rattle.lalrpop_json_values.specs.Scalars.{flag_at, name_at, null_at, number_at, optional, span_at, text_at, word_at};
ghost use Rattle.lalrpop_json_symbols.specs.Attributes.{attribute_at};
ghost use Rattle.lalrpop_json_symbols.specs.Literals.{literal_at, terminal_at};
ghost use Rattle.lalrpop_json_symbols.specs.Symbols.{symbol_at};
ghost use Rattle.lalrpop_json_symbols.specs.Types.{type_at};
ghost use Rattle.lalrpop_json_items.specs.Externs.{extern_at};
ghost use Rattle.lalrpop_json_items.specs.Items.{item_at};
ghost use Rattle.lalrpop_json_items.specs.Matches.{match_at};
ghost use Rattle.lalrpop_json_items.specs.Rules.{rule_at};
ghost use Rattle.lalrpop_json_grammar.specs.Wanted.{Component, Wanted};
ghost use Rattle.lalrpop_json_grammar.specs.FaultLaws.{GrammarFaultsAreTold, GrammarFaultsOfTextsAreFirst, ReadGrammarsHaveNoFault};
ghost use Rattle.lalrpop_json_grammar.specs.FaultLaws.{TreeFaultsAreTold, TreeFaultsOfTextsAreFirst, ReadTreesHaveNoFault};
ghost use Rattle.lalrpop_json_grammar.specs.FaultLaws.{TellsFirstFaults};
ghost use Rattle.lalrpop_json_grammar.specs.FaultLaws.{ReadValuesAreInOrder, NoneComesBeforeAnEarlier, EarlierComesBeforeLater};

/// The law of a grammar's faults: what reading tells of a value that spells no grammar is a fault of the value. It is the
/// first one in reading order where each object of the value has each key once, in byte order, so for each value that is read
/// of a JSON text. What is read has no fault.
pub fn grammar_faults()
    ensures told { GrammarFaultsAreTold }
    ensures first { GrammarFaultsOfTextsAreFirst }
    ensures read { ReadGrammarsHaveNoFault }
{}

/// The law of a tree's faults: as that of a grammar's.
pub fn tree_faults()
    ensures told { TreeFaultsAreTold }
    ensures first { TreeFaultsOfTextsAreFirst }
    ensures read { ReadTreesHaveNoFault }
{}

/// The law of the faults of what stands in a grammar: as that of a grammar's, for the reader of each.
pub fn component_faults()
    ensures attribute { TellsFirstFaults (Wanted.component Component.attribute) attribute_at }
    ensures literal { TellsFirstFaults (Wanted.component Component.literal) literal_at }
    ensures terminal { TellsFirstFaults (Wanted.component Component.terminal) terminal_at }
    ensures symbol { TellsFirstFaults (Wanted.component Component.symbol) symbol_at }
    ensures declared_type { TellsFirstFaults (Wanted.component Component.type) type_at }
    ensures rule { TellsFirstFaults (Wanted.component Component.rule) rule_at }
    ensures match_block { TellsFirstFaults (Wanted.component Component.match_block) match_at }
    ensures extern_block { TellsFirstFaults (Wanted.component Component.extern_block) extern_at }
    ensures item { TellsFirstFaults (Wanted.component Component.item) item_at }
{}

/// The law of the faults of numbers, spans, texts, names, words and their like: as that of a grammar's, for the reader of each.
pub fn scalar_faults()
    ensures number { TellsFirstFaults Wanted.number number_at }
    ensures span { TellsFirstFaults Wanted.span span_at }
    ensures text { TellsFirstFaults Wanted.text text_at }
    ensures optional_text { TellsFirstFaults (Wanted.optional Wanted.text) (optional text_at) }
    ensures name { TellsFirstFaults Wanted.name name_at }
    ensures word { (w : Word) → TellsFirstFaults (Wanted.word (w ∷ [])) (word_at w) }
    ensures flag { TellsFirstFaults Wanted.flag flag_at }
    ensures null { TellsFirstFaults Wanted.nothing null_at }
{}

/// The law that each object of a value that is read of a JSON text has each key once, in byte order.
pub fn read_values_are_in_order()
    ensures { ReadValuesAreInOrder }
{}

/// The law that reading order is a strict order of faults.
pub fn reading_order()
    ensures once { NoneComesBeforeAnEarlier }
    ensures through { EarlierComesBeforeLater }
{}
