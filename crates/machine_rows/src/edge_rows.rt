// Runs of small programs at the edges of the definitions. The programs stand in `specs/EdgeRows.antt`.

ghost use Rattle.machine_rows.specs.EdgeRows.{BaselessIsCaught, EveryTypeIsAnObject, NamedExceptionIsOne, BaseMethodImplements, DelegateOverAStruct, DelegateWithAnotherResult, FieldOfABox, UnboxToAClass, StoreTruncatesFields, ValueAtReturnOfItsType, OwnerByAParameter, OtherParameters, LabelsFromTheEnd, RequiresOfAnArray, ReplyUnderString, EventOfOtherParameters, LeadInLeavesAValue};

/// Every type but System.Object has System.Object above it, and a type named as an exception is one.
#[tactic(auto, using(crate::proofs::EdgeRowLaws::baseless_is_caught, crate::proofs::EdgeRowLaws::every_type_is_an_object, crate::proofs::EdgeRowLaws::named_exception_is_one))]
pub fn every_type_is_an_object()
    ensures caught { BaselessIsCaught }
    ensures above { EveryTypeIsAnObject }
    ensures named { NamedExceptionIsOne }
{}

/// An interface's method that a row gives a base's method is found by that method's slot.
#[tactic(auto, using(crate::proofs::EdgeRowLaws::base_method_implements))]
pub fn base_method_implements()
    ensures { BaseMethodImplements }
{}

/// A delegate over a struct's own method points into the box, and has a result just where Invoke has one.
#[tactic(auto, using(crate::proofs::EdgeRowLaws::delegate_over_a_struct, crate::proofs::EdgeRowLaws::delegate_with_another_result))]
pub fn delegates_over_structs()
    ensures points { DelegateOverAStruct }
    ensures results { DelegateWithAnotherResult }
{}

/// A box has no fields of its own, and a class no box.
#[tactic(auto, using(crate::proofs::EdgeRowLaws::field_of_a_box, crate::proofs::EdgeRowLaws::unbox_to_a_class))]
pub fn boxes()
    ensures field { FieldOfABox }
    ensures unbox { UnboxToAClass }
{}

/// A store of a struct truncates its fields.
#[tactic(auto, using(crate::proofs::EdgeRowLaws::store_truncates_fields))]
pub fn stores_of_structs()
    ensures { StoreTruncatesFields }
{}

/// ValueAtReturn loads what a place of its type holds.
#[tactic(auto, using(crate::proofs::EdgeRowLaws::value_at_return_of_its_type))]
pub fn value_at_return_of_its_type()
    ensures { ValueAtReturnOfItsType }
{}

/// A contract call is known by its token's own meaning and by its parameters.
#[tactic(auto, using(crate::proofs::EdgeRowLaws::owner_by_a_parameter, crate::proofs::EdgeRowLaws::other_parameters))]
pub fn contract_calls()
    ensures owner { OwnerByAParameter }
    ensures parameters { OtherParameters }
{}

/// Labels of the rest count from the end.
#[tactic(auto, using(crate::proofs::EdgeRowLaws::labels_from_the_end))]
pub fn labels_of_asserts()
    ensures { LabelsFromTheEnd }
{}

/// What failures make, and what replies to them do.
#[tactic(auto, using(crate::proofs::EdgeRowLaws::requires_of_an_array, crate::proofs::EdgeRowLaws::reply_under_string, crate::proofs::EdgeRowLaws::event_of_other_parameters))]
pub fn failures_at_the_edges()
    ensures array { RequiresOfAnArray }
    ensures string { ReplyUnderString }
    ensures event { EventOfOtherParameters }
{}

/// Where the entry group is passed over, the rest finds the stack of the lead-in.
#[tactic(auto, using(crate::proofs::EdgeRowLaws::lead_in_leaves_a_value))]
pub fn stack_of_the_lead_in()
    ensures { LeadInLeavesAValue }
{}
