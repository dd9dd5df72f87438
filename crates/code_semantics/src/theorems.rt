//! Theorems about the objects of a proper unit. Each is the contract of a function with an empty body.
//!
//! The theorems speak about a property of values.
//! It is given by an arbitrary function `all` from the type parameter
//! `K`: a value has the property if `all` returns it for some argument. Each property can be given so.
//! The property must hold of nil, of truth values, and of each integer that the code of the unit can make.
ghost use Rattle.std.specs.Prelude.{◌≡◌, ◌≤◌, ◌↔◌, ℕ, List, length, Option, Some, false, option_map, slice_get};
ghost use Rattle.run_types.specs.declared.types.NameId.{NameId};
ghost use Rattle.run_types.specs.declared.types.Value.{Value};
ghost use Rattle.run_types.specs.declared.types.Value.TheVariants as V;
ghost use Rattle.run_types.specs.declared.types.Serves.{Serves};
ghost use Rattle.code_semantics.specs.declared.unit.Unit.{Unit as Code};
ghost use Rattle.run_types.specs.declared.frames.CodeObject.{CodeObject};
ghost use Rattle.code_semantics.specs.Kinds as C;
ghost use Rattle.code_semantics.specs.Kinds.{Offered, code_kind};
ghost use Rattle.code_semantics.specs.Proper.{IsProper};
ghost use Rattle.code_semantics.specs.Step.{is_own, code_stepped, code_given, code_gone_on, code_picked, code_serving, code_placed, code_made};
ghost use Rattle.run_types.specs.Tables.{Each};
ghost use Rattle.run_types.specs.GivenProperties.{IsGiven};
ghost use Rattle.code_semantics.specs.OfUnit.{IsObjectOf};
ghost use Rattle.code_semantics.specs.Forget.{forget_serves, forget, forget_kind};
ghost use Rattle.code_semantics.specs.MadeNumbers.{HoldsOfPlain, IsMadeIn};
ghost use Rattle.code_semantics.specs.StepInstructions.{IsAtStep, IsAsking, IsChoosing, IsGoingOn, IsNamed};

/// A step of an object of a proper unit gives an object of that unit.
/// All its values have the property if the values that it receives have the property.
pub fn steps_keep_objects_of_the_unit<K>()
    ensures stepped { (u : Code) (all : K → Value) (x : CodeObject) (o : ℕ) → IsProper u → HoldsOfPlain (IsMadeIn u) (IsGiven all) → IsObjectOf u (IsGiven all) x
        → IsGiven all (V.Ref o) → IsObjectOf u (IsGiven all) (code_stepped u o x) }
    ensures given { (u : Code) (all : K → Value) (x : CodeObject) (v : Value) → IsProper u → HoldsOfPlain (IsMadeIn u) (IsGiven all) → IsObjectOf u (IsGiven all) x
        → IsGiven all v → IsAsking (code_kind u x) → IsObjectOf u (IsGiven all) (code_given u x v) }
    ensures gone_on { (u : Code) (all : K → Value) (x : CodeObject) → IsProper u → HoldsOfPlain (IsMadeIn u) (IsGiven all) → IsObjectOf u (IsGiven all) x
        → IsGoingOn (code_kind u x) → IsObjectOf u (IsGiven all) (code_gone_on u x) }
    ensures picked { (u : Code) (all : K → Value) (x : CodeObject) (i : ℕ) → IsProper u → HoldsOfPlain (IsMadeIn u) (IsGiven all) → IsObjectOf u (IsGiven all) x
        → IsChoosing (code_kind u x) → IsObjectOf u (IsGiven all) (code_picked u x i) }
    ensures serving { (u : Code) (all : K → Value) (x : CodeObject) (i : ℕ) (m : NameId) (args : List Value) (s : Serves) (y : CodeObject) → IsProper u
        → HoldsOfPlain (IsMadeIn u) (IsGiven all) → IsObjectOf u (IsGiven all) x → IsChoosing (code_kind u x) → Each (IsGiven all) args → is_own s ≡ false
        → code_serving u x i m args s ≡ Some y → IsObjectOf u (IsGiven all) y }
{}

/// A new object of a proper unit is an object of that unit, and it is at a step instruction.
pub fn new_objects_are_of_the_unit<K>()
    ensures placed { (u : Code) (all : K → Value) (c : ℕ) (y : CodeObject) → IsProper u → HoldsOfPlain (IsMadeIn u) (IsGiven all) → code_placed u c ≡ Some y
        → IsObjectOf u (IsGiven all) y × IsAtStep u y }
    ensures made { (u : Code) (all : K → Value) (k : NameId) (y : CodeObject) → IsProper u → HoldsOfPlain (IsMadeIn u) (IsGiven all) → code_made u k ≡ Some y
        → IsObjectOf u (IsGiven all) y × IsAtStep u y }
{}

/// After each step, an object of a proper unit is again at a step instruction.
pub fn steps_come_to_rest<K>()
    ensures stepped { (u : Code) (all : K → Value) (x : CodeObject) (o : ℕ) → IsProper u → HoldsOfPlain (IsMadeIn u) (IsGiven all) → IsObjectOf u (IsGiven all) x
        → IsGiven all (V.Ref o) → IsAtStep u x → IsAtStep u (code_stepped u o x) }
    ensures given { (u : Code) (all : K → Value) (x : CodeObject) (v : Value) → IsProper u → HoldsOfPlain (IsMadeIn u) (IsGiven all) → IsObjectOf u (IsGiven all) x
        → IsGiven all v → IsAsking (code_kind u x) → IsAtStep u x → IsAtStep u (code_given u x v) }
    ensures gone_on { (u : Code) (all : K → Value) (x : CodeObject) → IsProper u → HoldsOfPlain (IsMadeIn u) (IsGiven all) → IsObjectOf u (IsGiven all) x
        → IsGoingOn (code_kind u x) → IsAtStep u x → IsAtStep u (code_gone_on u x) }
    ensures picked { (u : Code) (all : K → Value) (x : CodeObject) (i : ℕ) → IsProper u → HoldsOfPlain (IsMadeIn u) (IsGiven all) → IsObjectOf u (IsGiven all) x
        → IsChoosing (code_kind u x) → IsAtStep u x → IsAtStep u (code_picked u x i) }
    ensures serving { (u : Code) (all : K → Value) (x : CodeObject) (i : ℕ) (m : NameId) (args : List Value) (s : Serves) (y : CodeObject) → IsProper u
        → HoldsOfPlain (IsMadeIn u) (IsGiven all) → IsObjectOf u (IsGiven all) x → IsChoosing (code_kind u x) → Each (IsGiven all) args → is_own s ≡ false
        → code_serving u x i m args s ≡ Some y → IsAtStep u x → IsAtStep u y }
{}

/// Each value that an object of a proper unit sends or returns has the property, and so has the receiver.
/// A message has at most 8 arguments.
pub fn values_that_leave_have_the_property<K>()
    ensures called { (u : Code) (all : K → Value) (x : CodeObject) (b : ℕ) (m : NameId) (args : List Value) → IsProper u → HoldsOfPlain (IsMadeIn u) (IsGiven all)
        → IsObjectOf u (IsGiven all) x → code_kind u x ≡ C.Send b m args → IsGiven all (V.Ref b) × Each (IsGiven all) args × (length args ≤ 8) }
    ensures sent { (u : Code) (all : K → Value) (x : CodeObject) (b : ℕ) (m : NameId) (args : List Value) → IsProper u → HoldsOfPlain (IsMadeIn u) (IsGiven all)
        → IsObjectOf u (IsGiven all) x → code_kind u x ≡ C.Async b m args → IsGiven all (V.Ref b) × Each (IsGiven all) args × (length args ≤ 8) }
    ensures returned { (u : Code) (all : K → Value) (x : CodeObject) (k n : ℕ) (v : Value) → IsProper u → HoldsOfPlain (IsMadeIn u) (IsGiven all)
        → IsObjectOf u (IsGiven all) x → code_kind u x ≡ C.Return k n v → IsGiven all v }
{}

/// The unit has each class that one of its objects instantiates, and
/// each method that the object answers, alone or in an alternative.
pub fn what_is_named_is_there<K>()
    ensures made { (u : Code) (all : K → Value) (x : CodeObject) (k : NameId) → IsProper u → HoldsOfPlain (IsMadeIn u) (IsGiven all) → IsObjectOf u (IsGiven all) x
        → code_kind u x ≡ C.New k → (y : CodeObject) × (code_made u k ≡ Some y) }
    ensures answered { (u : Code) (all : K → Value) (x : CodeObject) (names : List NameId) (i : ℕ) (m : NameId) (args : List Value) (s : Serves) → IsProper u
        → HoldsOfPlain (IsMadeIn u) (IsGiven all) → IsObjectOf u (IsGiven all) x → code_kind u x ≡ C.Answer names → IsNamed m names
        → (y : CodeObject) × (code_serving u x i m args s ≡ Some y) }
    ensures chosen { (u : Code) (all : K → Value) (x : CodeObject) (alts : List Offered) (j : ℕ) (a : Offered) (names : List NameId) (i : ℕ) (m : NameId)
        (args : List Value) (s : Serves) → IsProper u → HoldsOfPlain (IsMadeIn u) (IsGiven all) → IsObjectOf u (IsGiven all) x → code_kind u x ≡ C.Select alts
        → slice_get alts j ≡ Some a → a.answer ≡ Some names → IsNamed m names → (y : CodeObject) × (code_serving u x i m args s ≡ Some y) }
{}

/// The numbers of requests do not influence an object: erasing them commutes with each step.
/// The next action is the same, except for the number in a return.
pub fn numbers_of_requests_change_nothing<K>()
    ensures stepped { (u : Code) (o : ℕ) (x : CodeObject) → forget (code_stepped u o x) ≡ code_stepped u o (forget x) }
    ensures given { (u : Code) (x : CodeObject) (v : Value) → forget (code_given u x v) ≡ code_given u (forget x) v }
    ensures gone_on { (u : Code) (x : CodeObject) → forget (code_gone_on u x) ≡ code_gone_on u (forget x) }
    ensures picked { (u : Code) (x : CodeObject) (i : ℕ) → forget (code_picked u x i) ≡ code_picked u (forget x) i }
    ensures serving { (u : Code) (x : CodeObject) (i : ℕ) (m : NameId) (args : List Value) (s : Serves)
        → option_map forget (code_serving u x i m args s) ≡ code_serving u (forget x) i m args (forget_serves s) }
    ensures placed { (u : Code) (c : ℕ) → option_map forget (code_placed u c) ≡ code_placed u c }
    ensures kind { (u : Code) (x : CodeObject) → code_kind u (forget x) ≡ forget_kind (code_kind u x) }
    ensures of_unit { (u : Code) (all : K → Value) (x : CodeObject) → IsObjectOf u (IsGiven all) (forget x) ↔ IsObjectOf u (IsGiven all) x }
    ensures at_step { (u : Code) (x : CodeObject) → IsAtStep u (forget x) ↔ IsAtStep u x }
{}
