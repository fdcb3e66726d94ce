//! How to make a tree by hand and print it: a document with one type, on lines and on one line.
//!
//! It has no words. Begin with `document`.
#![tactic(auto)]

use graphql_ast::{
    Definition, DirectiveList, Document, FieldDefinition, Name, Node, NodeStr,
    ObjectTypeDefinition, Tree, Type, name, ty,
};
use std::alloc::{AllocError, Global};
use std::io;

/// `name: ty`
fn field(alloc: Global, name: Name, ty: Type) -> Result<Node<FieldDefinition>, AllocError> {
    let field = FieldDefinition {
        description: None,
        name,
        arguments: Vec::new(alloc),
        ty,
        directives: DirectiveList::new(alloc),
    };
    Ok(Node::new(alloc, field)?)
}

/// A type with a description and two fields.
fn product(alloc: Global) -> Result<ObjectTypeDefinition, AllocError> {
    let mut fields = Vec::new(alloc);
    fields.push(field(alloc, name!("title"), ty!(alloc, String!)?)?)?;
    fields.push(field(alloc, name!("prices"), ty!(alloc, [Float!])?)?)?;
    Ok(ObjectTypeDefinition {
        description: Some(NodeStr::new_str(alloc, "What is sold.")?),
        name: name!("Product"),
        implements_interfaces: Vec::new(alloc),
        directives: DirectiveList::new(alloc),
        fields,
    })
}

/// The document that has this type alone.
fn document(alloc: Global) -> Result<Document, AllocError> {
    let product = Node::new(alloc, product(alloc)?)?;
    let mut document = Document::new(alloc);
    document
        .definitions
        .push(Definition::ObjectTypeDefinition(product))?;
    Ok(document)
}

fn main(rt: HostRuntime) -> io::Result<()> {
    let document = document(rt.alloc())?;
    if !document.is_writable() {
        return println!(rt; "the grammar has no text of this document");
    }
    print!(rt; "{document}")?;
    println!(rt; "{}", document.serialize().no_indent())
}
