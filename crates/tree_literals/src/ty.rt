//! References to types.
ghost use Rattle.std.specs.Prelude.{◌≡◌, ◌↔◌, IfOk, IsTrue, not};
ghost use Rattle.graphql_names.specs.Placed.{name_tree};
ghost use Rattle.tree_literals.specs.TypeTree.{ListTree, type_tree};
ghost use Rattle.tree_literals.specs.TypeQueries.{non_null_type, nullable_type, item_type_of, inner_name, has_mark, is_list_type, AreTypesCompatible};

use graphql_names::Name;
use std::alloc::{AllocError, Global};

/// The name of a type.
pub type NamedType = Name;

/// A reference to a type: its name, or a list of such, each nullable or not (section 3.11 and 3.12).
#[derive(PartialEq, Eq, Hash)]
pub enum Type {
    /// `Name`
    Named(NamedType),
    /// `Name!`
    NonNullNamed(NamedType),
    /// `[Type]`
    List(Box<Type>),
    /// `[Type]!`
    NonNullList(Box<Type>),
}

impl Drop for Type {
    fn drop(self) {
        match self {
            Type::Named(_) | Type::NonNullNamed(_) | Type::List(_) | Type::NonNullList(_) => {}
        }
    }
}

#[tactic(auto, using(crate::proofs::Trees::type_tree_rules))]
impl Type {
    /// The type with the mark `!`; one that has it stays as it is.
    pub fn non_null(self) -> Type
        ensures { type_tree result ≡ non_null_type (type_tree self) }
    {
        match self {
            Type::Named(name) => Type::NonNullNamed(name),
            Type::List(item) => Type::NonNullList(item),
            Type::NonNullNamed(name) => Type::NonNullNamed(name),
            Type::NonNullList(item) => Type::NonNullList(item),
        }
    }

    /// The type without the mark `!`.
    pub fn nullable(self) -> Type
        ensures { type_tree result ≡ nullable_type (type_tree self) }
    {
        match self {
            Type::NonNullNamed(name) => Type::Named(name),
            Type::NonNullList(item) => Type::List(item),
            Type::Named(name) => Type::Named(name),
            Type::List(item) => Type::List(item),
        }
    }

    /// The nullable list of this type.
    pub fn list(self, alloc: Global) -> Result<Type, AllocError>
        ensures { IfOk result (λ t. type_tree t ≡ ListTree (type_tree self)) }
    {
        Ok(Type::List(Box::new(alloc, self)?))
    }

    /// The type of a list's items; a named type's is itself.
    pub fn item_type(&self) -> &Type
        ensures { type_tree result.now ≡ item_type_of (type_tree self.now) }
    {
        match self {
            Type::Named(_) | Type::NonNullNamed(_) => self,
            Type::List(item) | Type::NonNullList(item) => &**item,
        }
    }

    /// The name inside all brackets.
    pub fn inner_named_type(&self) -> &NamedType
        ensures { name_tree result.now ≡ inner_name (type_tree self.now) }
    {
        match self {
            Type::Named(name) | Type::NonNullNamed(name) => name,
            Type::List(item) | Type::NonNullList(item) => item.inner_named_type(),
        }
    }

    /// Whether the type has the mark `!`.
    pub fn is_non_null(&self) -> bool
        ensures { result ≡ has_mark (type_tree self.now) }
    {
        match self {
            Type::NonNullNamed(_) | Type::NonNullList(_) => true,
            Type::Named(_) | Type::List(_) => false,
        }
    }

    /// Whether the type is a list, marked or not.
    pub fn is_list(&self) -> bool
        ensures { result ≡ is_list_type (type_tree self.now) }
    {
        match self {
            Type::List(_) | Type::NonNullList(_) => true,
            Type::Named(_) | Type::NonNullNamed(_) => false,
        }
    }

    /// Whether the type is a name, marked or not.
    pub fn is_named(&self) -> bool
        ensures { result ≡ not (is_list_type (type_tree self.now)) }
    {
        match self {
            Type::Named(_) | Type::NonNullNamed(_) => true,
            Type::List(_) | Type::NonNullList(_) => false,
        }
    }

    /// Whether a value of this type may be used where `target` is asked for: the same name in the same lists, and
    /// non-null wherever `target` is (section 5.8.5).
    pub fn is_assignable_to(&self, target: &Type) -> bool
        ensures { IsTrue result ↔ AreTypesCompatible (type_tree self.now) (type_tree target.now) }
    {
        match self {
            Type::Named(name) => match target {
                Type::Named(wanted) => *name == *wanted,
                Type::NonNullNamed(_) | Type::List(_) | Type::NonNullList(_) => false,
            },
            Type::NonNullNamed(name) => match target {
                Type::Named(wanted) | Type::NonNullNamed(wanted) => *name == *wanted,
                Type::List(_) | Type::NonNullList(_) => false,
            },
            Type::List(item) => match target {
                Type::List(wanted) => item.is_assignable_to(wanted),
                Type::Named(_) | Type::NonNullNamed(_) | Type::NonNullList(_) => false,
            },
            Type::NonNullList(item) => match target {
                Type::List(wanted) | Type::NonNullList(wanted) => item.is_assignable_to(wanted),
                Type::Named(_) | Type::NonNullNamed(_) => false,
            },
        }
    }

    /// Whether a value of this type may be used where `target` without its mark `!` is asked for (section 5.8.5).
    #[tactic(auto, using(crate::proofs::Trees::type_tree_rules))]
    pub fn is_assignable_to_nullable(&self, target: &Type) -> bool
        ensures { IsTrue result ↔ AreTypesCompatible (type_tree self.now) (nullable_type (type_tree target.now)) }
    {
        match target {
            Type::Named(_) | Type::List(_) => self.is_assignable_to(target),
            Type::NonNullNamed(wanted) => match self {
                Type::Named(name) | Type::NonNullNamed(name) => *name == *wanted,
                Type::List(_) | Type::NonNullList(_) => false,
            },
            Type::NonNullList(wanted) => match self {
                Type::List(item) | Type::NonNullList(item) => item.is_assignable_to(wanted),
                Type::Named(_) | Type::NonNullNamed(_) => false,
            },
        }
    }
}

impl Clone for Type {
    ghost is_clone = { λ t copy. type_tree copy ≡ type_tree t };

    #[tactic(auto, using(crate::proofs::Trees::type_tree_rules))]
    fn clone(&self) -> Result<Type, AllocError> {
        match self {
            Type::Named(name) => Ok(Type::Named(name.clone()?)),
            Type::NonNullNamed(name) => Ok(Type::NonNullNamed(name.clone()?)),
            // The copy uses the allocator of the original, as `clone` is given none.
            Type::List(item) => Ok(Type::List(Box::new(*Box::allocator(item), (**item).clone()?)?)),
            Type::NonNullList(item) => Ok(Type::NonNullList(Box::new(
                *Box::allocator(item),
                (**item).clone()?,
            )?)),
        }
    }
}
