// Calls of abbreviators, computed from the definitions. The statements stand in `specs/Rows.antt`.

ghost use Rattle.expansion_rows.specs.Rows.{ArgumentStandsForItsParameter, BranchesGoWhereTheirTargetsStand, EachLoadIsACopy, LocalsAreCopied, OldRangesGrow, TypeArgumentsStandUnderTheAbbreviator, InstancesFollowOneAnother, AbbreviatorsCallAbbreviators, LabelsAreTheCallers, AssertsAreNumberedOverAllClauses};

/// Arguments in the place of parameters, with branches, locals and old ranges.
#[tactic(auto, using(crate::proofs::RowLaws::argument_stands_for_its_parameter, crate::proofs::RowLaws::branches_go_where_their_targets_stand, crate::proofs::RowLaws::each_load_is_a_copy, crate::proofs::RowLaws::locals_are_copied, crate::proofs::RowLaws::old_ranges_grow))]
pub fn places()
    ensures argument_stands_for_its_parameter { ArgumentStandsForItsParameter }
    ensures branches_go_where_their_targets_stand { BranchesGoWhereTheirTargetsStand }
    ensures each_load_is_a_copy { EachLoadIsACopy }
    ensures locals_are_copied { LocalsAreCopied }
    ensures old_ranges_grow { OldRangesGrow }
{}

/// Type arguments, abbreviators of abbreviators, labels.
#[tactic(auto, using(crate::proofs::RowLaws::type_arguments_stand_under_the_abbreviator, crate::proofs::RowLaws::instances_follow_one_another, crate::proofs::RowLaws::abbreviators_call_abbreviators, crate::proofs::RowLaws::labels_are_the_callers, crate::proofs::RowLaws::asserts_are_numbered_over_all_clauses))]
pub fn types_and_labels()
    ensures type_arguments_stand_under_the_abbreviator { TypeArgumentsStandUnderTheAbbreviator }
    ensures instances_follow_one_another { InstancesFollowOneAnother }
    ensures abbreviators_call_abbreviators { AbbreviatorsCallAbbreviators }
    ensures labels_are_the_callers { LabelsAreTheCallers }
    ensures asserts_are_numbered_over_all_clauses { AssertsAreNumberedOverAllClauses }
{}
