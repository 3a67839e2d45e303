ghost use Rattle.std.specs.Prelude.{◌≡◌, List, length, Some, None};
ghost use Rattle.xpath_binding.specs.declared.functions.Function.{Function};
ghost use Rattle.xpath_calls.specs.Given.{given};
ghost use Rattle.xpath_calls.specs.Taking.{arguments, call_of, completed};
ghost use Rattle.xpath_meaning.specs.Calls.{call, nothing};
ghost use Rattle.xpath_meaning.specs.Meanings.{Meant};
ghost use Rattle.xpath_meaning.specs.Outcome.{◌>>=◌ as ◌>>>◌};
ghost use Rattle.xpath_meaning.specs.Reading.{Reading};
ghost use Rattle.xpath_meaning.specs.declared.context.Context.{Context};
ghost use Rattle.xpath_syntax.specs.declared.expression.NameRef.{NameRef};
ghost use Rattle.xpath_values.specs.declared.value.Value.{Value};

/// A call is its arguments from the left, each as its function takes it, and then what the function gives of them; a call of
/// no function gives the empty text.
pub fn calls_are_made_of_arguments()
    ensures call { (name : NameRef) (f : Function) (args : List Meant) (R : Reading) (values : List Value) (c : Context) → call_of name (length args) ≡ Some f → call name args R values c ≡
        (arguments f 0 args R values c >>> λ xs. completed f xs R c >>> λ ys. given f name.slot ys R c) }
    ensures none { (name : NameRef) (args : List Meant) (R : Reading) (values : List Value) (c : Context) → call_of name (length args) ≡ None → call name args R values c ≡ nothing }
{}
