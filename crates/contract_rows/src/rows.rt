// Own contracts of small methods, computed from the definitions. The methods stand in `specs/Rows.antt`.

ghost use Rattle.contract_rows.specs.Rows.{AccountConstructorHasALeadIn, AccountTakeHasTwoClauses, AccountInvariantIsAClause, AccountBreaksNoRule, IfThrowIsLeadIn, EndContractBlockIsNoClause, LabelsCountRequiresTogether, MessageIsAStaticField, EachClauseHasItsOwnLocals, AssertsAreNumberedOverTheBody, ClauseSetsUpItsClosure, ThoseBreakNoRule, CrossedCallsBreak1, BadSegmentsBreak2, StrayCallsBreak3, BadOldValuesBreak4, ThrowInASegmentBreaks5, SharedLocalsBreak6, WrongTypesBreak7, WrongTypesOfEnsuresOnThrowBreak7, ExceptionsThatCantBeMadeBreak7, CallInAHandlerBreaks2And1, RegionInTwoSegmentsBreaks2, BranchesWithinASegmentBreakNothing, InnerClosureIsSetUpFirst};

/// The account: a base constructor's call, a message, an old value, an invariant.
#[tactic(auto, using(crate::proofs::RowLaws::account_constructor_has_a_lead_in, crate::proofs::RowLaws::account_take_has_two_clauses, crate::proofs::RowLaws::account_invariant_is_a_clause, crate::proofs::RowLaws::account_breaks_no_rule))]
pub fn account()
    ensures account_constructor_has_a_lead_in { AccountConstructorHasALeadIn }
    ensures account_take_has_two_clauses { AccountTakeHasTwoClauses }
    ensures account_invariant_is_a_clause { AccountInvariantIsAClause }
    ensures account_breaks_no_rule { AccountBreaksNoRule }
{}

/// Blocks of the older form, labels, messages, locals, asserts, closures.
#[tactic(auto, using(crate::proofs::RowLaws::if_throw_is_lead_in, crate::proofs::RowLaws::end_contract_block_is_no_clause, crate::proofs::RowLaws::labels_count_requires_together, crate::proofs::RowLaws::message_is_a_static_field, crate::proofs::RowLaws::each_clause_has_its_own_locals, crate::proofs::RowLaws::asserts_are_numbered_over_the_body, crate::proofs::RowLaws::clause_sets_up_its_closure, crate::proofs::RowLaws::inner_closure_is_set_up_first, crate::proofs::RowLaws::those_break_no_rule))]
pub fn own_contracts()
    ensures if_throw_is_lead_in { IfThrowIsLeadIn }
    ensures end_contract_block_is_no_clause { EndContractBlockIsNoClause }
    ensures labels_count_requires_together { LabelsCountRequiresTogether }
    ensures message_is_a_static_field { MessageIsAStaticField }
    ensures each_clause_has_its_own_locals { EachClauseHasItsOwnLocals }
    ensures asserts_are_numbered_over_the_body { AssertsAreNumberedOverTheBody }
    ensures clause_sets_up_its_closure { ClauseSetsUpItsClosure }
    ensures inner_closure_is_set_up_first { InnerClosureIsSetUpFirst }
    ensures those_break_no_rule { ThoseBreakNoRule }
{}

/// Each rule, broken in each of its ways.
pub fn broken_rules()
    ensures crossed_calls_break_1 { CrossedCallsBreak1 }
    ensures bad_segments_break_2 { BadSegmentsBreak2 }
    ensures stray_calls_break_3 { StrayCallsBreak3 }
    ensures bad_old_values_break_4 { BadOldValuesBreak4 }
    ensures throw_in_a_segment_breaks_5 { ThrowInASegmentBreaks5 }
    ensures shared_locals_break_6 { SharedLocalsBreak6 }
    ensures wrong_types_break_7 { WrongTypesBreak7 }
    ensures wrong_types_of_ensures_on_throw_break_7 { WrongTypesOfEnsuresOnThrowBreak7 }
    ensures exceptions_that_cant_be_made_break_7 { ExceptionsThatCantBeMadeBreak7 }
    ensures call_in_a_handler_breaks_2_and_1 { CallInAHandlerBreaks2And1 }
    ensures region_in_two_segments_breaks_2 { RegionInTwoSegmentsBreaks2 }
    ensures branches_within_a_segment_break_nothing { BranchesWithinASegmentBreakNothing }
{}
