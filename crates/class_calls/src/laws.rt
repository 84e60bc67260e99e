//! Laws of the answers, proved as contracts of functions that do nothing.

ghost use Rattle.std.specs.Prelude.{◌≡◌, ◌⊎◌, ℕ, List};
ghost use Rattle.bpf_decode.specs.Class.{ClassMethod};
ghost use Rattle.class_calls.specs.Answers.{AreSame, IsAnsweredBy, IsLoaded, IsWantOfClass, RefusesImage};
ghost use Rattle.class_calls.specs.Answers.{RefusesMethod};
ghost use Rattle.class_calls.specs.declared.answer.Answer.{Answer};
ghost use Rattle.class_calls.specs.declared.answer.MethodError.{MethodError};
ghost use Rattle.class_calls.specs.declared.class.ClassError.{ClassError};
ghost use Rattle.class_calls.specs.Needs.{NeededAreEnough};
ghost use Rattle.class_calls.specs.Over.{ListsStand, MadeIsEdited};
ghost use Rattle.class_calls.specs.OnParts.{AllIsEnough, IsNeededOnce, MoreOfPartIsEnough};
ghost use Rattle.class_calls.specs.OnParts.{MoreOfPartStopsNoEarlier};
ghost use Rattle.class_calls.specs.OnParts.{PartsAreAnsweredAlike, PartsAreAnsweredAsWhole};
ghost use Rattle.class_calls.specs.Parts.{NeedsAreLacking};

/// An image has one class, or but for want of memory one reason to have none.
pub fn one_class()
    ensures class { (image : List ℕ) (c d : List ClassMethod) → IsLoaded image c → IsLoaded image d → c ≡ d }
    ensures loaded { (image : List ℕ) (c : List ClassMethod) (e : ClassError) → IsLoaded image c →
        RefusesImage image e → IsWantOfClass e }
    ensures refusal { (image : List ℕ) (e f : ClassError) → RefusesImage image e → RefusesImage image f →
        IsWantOfClass e ⊎ (IsWantOfClass f ⊎ (e ≡ f)) }
{
    // For the proof: bytes are the image of one class, read back as it was written.
    bpf_decode::one_class();
    bpf_decode::round_trip();
}

/// A call has one answer; but for want of memory it is refused for one reason alone, or answered
/// and not refused.
pub fn one_answer()
    ensures same { (class : List ClassMethod) (name object : List ℕ) (caller : ℕ) (input : List ℕ) (a b : Answer) →
        IsAnsweredBy class name object caller input a → IsAnsweredBy class name object caller input b → AreSame a b }
    ensures answer { (class : List ClassMethod) (name object : List ℕ) (caller : ℕ) (input : List ℕ) (answer : Answer)
        (e : MethodError) → IsAnsweredBy class name object caller input answer →
        RefusesMethod class name object caller input e → e ≡ MethodError.NoMemory }
    ensures refusal { (class : List ClassMethod) (name object : List ℕ) (caller : ℕ) (input : List ℕ)
        (e f : MethodError) → RefusesMethod class name object caller input e →
        RefusesMethod class name object caller input f →
        (e ≡ MethodError.NoMemory) ⊎ ((f ≡ MethodError.NoMemory) ⊎ (e ≡ f)) }
{
    // For the proof: a flat form is of one object, a run is a chain of steps in some layout, and a
    // method has one list.
    bpf_machine::chains();
    bpf_machine::layouts();
    bpf_machine::lists();
    object_bytes::one_object();
}

/// A host may leave out of an object each part that the method's code doesn't need, or hand in
/// whatever it likes there: the answer is the same, and so its edits are those of the whole object.
pub fn parts_may_be_left_out()
    ensures { NeededAreEnough }
{
    // For the proof: a flat form is of one object, a run is a chain of steps in some layout, which
    // has one list, and parts that the code doesn't need don't change what it answers.
    bpf_machine::chains();
    bpf_machine::layouts();
    bpf_machine::simulation();
    bpf_machine::lists();
    object_bytes::one_object();
    footprint::frame();
}

/// A list of edits that no object refuses makes of each object of the same presence and size what
/// its own object has wherever it wrote, and leaves it elsewhere: so a host may make it beside other
/// writers.
pub fn lists_stand_over_others()
    ensures made { MadeIsEdited }
    ensures stand { ListsStand }
{}

/// Where calls on several parts of one object are answered, by one host's limits, they are answered
/// alike; by the limits of all objects also as `call_on` answers on the object's flat form.
pub fn parts_have_one_answer()
    ensures same { PartsAreAnsweredAlike }
    ensures whole { PartsAreAnsweredAsWhole }
{
    // For the proof: bytes spell one part, a flat form is of one object, and a run is a chain of steps
    // in some layout.
    bpf_machine::chains();
    bpf_machine::layouts();
    object_bytes::one_object();
    part_bytes::one_part();
}

/// A call on a part that has all of its object needs nothing. Where a call on a part of an object is
/// answered, one on a part of it that has more needs nothing either: it is answered alike, or `Full`,
/// or refused for want of memory. Where both need something, the one on the part that has more stops
/// at the same helper call as the other, or at a later one: at a later one, if the part has the blocks
/// or the name that the other needed.
pub fn more_of_a_part_is_enough()
    ensures all { AllIsEnough }
    ensures more { MoreOfPartIsEnough }
    ensures later { MoreOfPartStopsNoEarlier }
    ensures once { IsNeededOnce }
{
    // For the proof: bytes spell one part, and a run that knows more needs nothing more.
    part_bytes::one_part();
    part_calls::more_is_enough();
}

/// What a run on a part needs of its object isn't in the part.
pub fn needs_are_lacking()
    ensures { NeedsAreLacking }
{}
