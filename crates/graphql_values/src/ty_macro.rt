//! Types written in a program.

/// `ty!(alloc, [[[Obj ] !]]!)`: the type as it is written, of names without places, as a Result of [`Type`](crate::Type)
/// and the allocator's error. The check proves at each call that the name is a Name token.
#[macro_export]
macro_rules! ty {
    ($alloc:expr, [ $($item:tt)+ ] !) => {
        match $crate::ty!($alloc, [ $($item)+ ]) {
            Ok(list) => Ok(list.non_null()),
            Err(refused) => Err(refused),
        }
    };
    ($alloc:expr, [ $($item:tt)+ ]) => {
        match $crate::ty!($alloc, $($item)+) {
            Ok(item) => item.list($alloc),
            Err(refused) => Err(refused),
        }
    };
    ($alloc:expr, $name:ident !) => {
        Ok::<$crate::Type, std::alloc::AllocError>($crate::Type::NonNullNamed($crate::Name::new_static_unchecked(stringify!($name))))
    };
    ($alloc:expr, $name:ident) => {
        Ok::<$crate::Type, std::alloc::AllocError>($crate::Type::Named($crate::Name::new_static_unchecked(stringify!($name))))
    };
}
