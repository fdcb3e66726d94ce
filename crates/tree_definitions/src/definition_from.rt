//! Definitions made from the nodes of their variants.
ghost use Rattle.std.specs.Prelude.{◌≡◌};
ghost use Rattle.tree_definitions.specs.declared.definition.Definition.TheVariants as variant;

use crate::definition::Definition;
use spec_tree::{DirectiveDefinition, FragmentDefinition, Node, OperationDefinition};
use tree_composite_types::{
    InterfaceTypeDefinition, InterfaceTypeExtension, ObjectTypeDefinition, ObjectTypeExtension,
    UnionTypeDefinition, UnionTypeExtension,
};
use tree_input_types::{
    EnumTypeDefinition, EnumTypeExtension, InputObjectTypeDefinition, InputObjectTypeExtension,
    ScalarTypeDefinition, ScalarTypeExtension, SchemaDefinition, SchemaExtension,
};

impl From<Node<OperationDefinition>> for Definition {
    ghost from_gives = { λ node d. d ≡ variant.OperationDefinition node };

    fn from(node: Node<OperationDefinition>) -> Definition {
        Definition::OperationDefinition(node)
    }
}

impl From<Node<FragmentDefinition>> for Definition {
    ghost from_gives = { λ node d. d ≡ variant.FragmentDefinition node };

    fn from(node: Node<FragmentDefinition>) -> Definition {
        Definition::FragmentDefinition(node)
    }
}

impl From<Node<DirectiveDefinition>> for Definition {
    ghost from_gives = { λ node d. d ≡ variant.DirectiveDefinition node };

    fn from(node: Node<DirectiveDefinition>) -> Definition {
        Definition::DirectiveDefinition(node)
    }
}

impl From<Node<SchemaDefinition>> for Definition {
    ghost from_gives = { λ node d. d ≡ variant.SchemaDefinition node };

    fn from(node: Node<SchemaDefinition>) -> Definition {
        Definition::SchemaDefinition(node)
    }
}

impl From<Node<ScalarTypeDefinition>> for Definition {
    ghost from_gives = { λ node d. d ≡ variant.ScalarTypeDefinition node };

    fn from(node: Node<ScalarTypeDefinition>) -> Definition {
        Definition::ScalarTypeDefinition(node)
    }
}

impl From<Node<ObjectTypeDefinition>> for Definition {
    ghost from_gives = { λ node d. d ≡ variant.ObjectTypeDefinition node };

    fn from(node: Node<ObjectTypeDefinition>) -> Definition {
        Definition::ObjectTypeDefinition(node)
    }
}

impl From<Node<InterfaceTypeDefinition>> for Definition {
    ghost from_gives = { λ node d. d ≡ variant.InterfaceTypeDefinition node };

    fn from(node: Node<InterfaceTypeDefinition>) -> Definition {
        Definition::InterfaceTypeDefinition(node)
    }
}

impl From<Node<UnionTypeDefinition>> for Definition {
    ghost from_gives = { λ node d. d ≡ variant.UnionTypeDefinition node };

    fn from(node: Node<UnionTypeDefinition>) -> Definition {
        Definition::UnionTypeDefinition(node)
    }
}

impl From<Node<EnumTypeDefinition>> for Definition {
    ghost from_gives = { λ node d. d ≡ variant.EnumTypeDefinition node };

    fn from(node: Node<EnumTypeDefinition>) -> Definition {
        Definition::EnumTypeDefinition(node)
    }
}

impl From<Node<InputObjectTypeDefinition>> for Definition {
    ghost from_gives = { λ node d. d ≡ variant.InputObjectTypeDefinition node };

    fn from(node: Node<InputObjectTypeDefinition>) -> Definition {
        Definition::InputObjectTypeDefinition(node)
    }
}

impl From<Node<SchemaExtension>> for Definition {
    ghost from_gives = { λ node d. d ≡ variant.SchemaExtension node };

    fn from(node: Node<SchemaExtension>) -> Definition {
        Definition::SchemaExtension(node)
    }
}

impl From<Node<ScalarTypeExtension>> for Definition {
    ghost from_gives = { λ node d. d ≡ variant.ScalarTypeExtension node };

    fn from(node: Node<ScalarTypeExtension>) -> Definition {
        Definition::ScalarTypeExtension(node)
    }
}

impl From<Node<ObjectTypeExtension>> for Definition {
    ghost from_gives = { λ node d. d ≡ variant.ObjectTypeExtension node };

    fn from(node: Node<ObjectTypeExtension>) -> Definition {
        Definition::ObjectTypeExtension(node)
    }
}

impl From<Node<InterfaceTypeExtension>> for Definition {
    ghost from_gives = { λ node d. d ≡ variant.InterfaceTypeExtension node };

    fn from(node: Node<InterfaceTypeExtension>) -> Definition {
        Definition::InterfaceTypeExtension(node)
    }
}

impl From<Node<UnionTypeExtension>> for Definition {
    ghost from_gives = { λ node d. d ≡ variant.UnionTypeExtension node };

    fn from(node: Node<UnionTypeExtension>) -> Definition {
        Definition::UnionTypeExtension(node)
    }
}

impl From<Node<EnumTypeExtension>> for Definition {
    ghost from_gives = { λ node d. d ≡ variant.EnumTypeExtension node };

    fn from(node: Node<EnumTypeExtension>) -> Definition {
        Definition::EnumTypeExtension(node)
    }
}

impl From<Node<InputObjectTypeExtension>> for Definition {
    ghost from_gives = { λ node d. d ≡ variant.InputObjectTypeExtension node };

    fn from(node: Node<InputObjectTypeExtension>) -> Definition {
        Definition::InputObjectTypeExtension(node)
    }
}
