/// What is invoked where parentheses of arguments end.
#[derive(Clone, Copy, PartialEq, Eq)]
pub enum Invocation {
    /// `m(..)`, `e.m(..)` or `super.m(..)` (JLS 15.12).
    Method,
    /// `new C(..)` (JLS 15.9).
    Creation,
    /// `this(..);` or `super(..);` at the head of a constructor's body (JLS 8.8.7.1).
    Ctor,
}

/// What begins together with a block.
#[derive(Clone, Copy, PartialEq, Eq)]
pub enum Opening {
    /// The block alone.
    Block,
    /// An initializer of a class, static or not (JLS 8.6, 8.7).
    Initializer,
    /// The body of a constructor without a written call: the block, and an implicit `super()` (JLS 8.8.7).
    ImplicitSuper,
}

/// What stands at a token. Where another token belongs to it, the mark says how far off that one is. Distances count all
/// tokens but those before the last identifier of a type's name, so they stay when the name gets another package.
#[derive(Clone, Copy, PartialEq, Eq)]
pub enum Mark {
    /// Neither an element nor a reference, and no block begins.
    Plain,
    /// A token of a type's name before its last identifier (JLS 6.5.5.2).
    Front,
    /// The last identifier of a type's name, a reference (JLS 6.5.5).
    TypeName,
    /// An identifier of an expression name that isn't its last (JLS 6.5.2, 6.5.6); the name begins so far before it.
    Part(u32),
    /// The last identifier of an expression name (JLS 6.5.6); the name begins so far before it.
    Name(u32),
    /// The identifier of a field access, `e.x` or `super.x`, a reference (JLS 15.11).
    FieldAccess,
    /// The `)` of an invocation, a reference; so far before it stands its identifier, or `new`, `this` or `super`.
    Invokes(Invocation, u32),
    /// The identifier of a class or an interface, declared (JLS 8.1, 9.1).
    Type,
    /// The first field that a declaration declares (JLS 8.3).
    Field,
    /// A further field of the same declaration.
    NextField,
    /// The identifier of a method, declared (JLS 8.4).
    Method,
    /// The identifier of a constructor: declared, and a reference to its class (JLS 8.8).
    Ctor,
    /// The `{` of a class that declares no constructor: its default constructor is declared here, and invokes the
    /// superclass's (JLS 8.8.9).
    DefaultCtor,
    /// A block begins, and so many tokens behind this one are in it.
    Opens(Opening, u32),
    /// A local variable or a parameter, declared (JLS 8.4.1, 14.4); so far before it its block begins.
    Local(u32),
    /// A variable of `for (T x : e)` or of a catch clause, declared (JLS 14.14.2, 14.20); so far behind it its block begins.
    Ahead(u32),
}
