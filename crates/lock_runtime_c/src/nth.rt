//! What stands at a place of a list.
ghost use Rattle.std.specs.Prelude.{◌≡◌, IfSome, None, Some, slice_get};

pub fn nth<T>(items: &[T], at: u64) -> Option<&T>
    ensures found { IfSome result (λ x. slice_get items.now at ≡ Some x.now) }
    ensures none { result ≡ None → slice_get items.now at ≡ None }
{
    items.get(at as usize)
}
