//! What a node of a source is.

/// What a node of a source is: a run of text, or a directive line by the identifier behind its `#`.
#[derive(Clone, Copy, Debug, PartialEq, Eq)]
pub enum NodeKind {
    /// A maximal run of logical lines with tokens that are no directive lines.
    Text,
    /// `#if`
    If,
    /// `#ifdef`
    Ifdef,
    /// `#ifndef`
    Ifndef,
    /// `#elif`
    Elif,
    /// `#else`
    Else,
    /// `#endif`
    Endif,
    /// `#define`
    Define,
    /// `#undef`
    Undef,
    /// `#include`
    Include,
    /// `#pragma once`
    Once,
    /// `#error`
    Error,
    /// Any other directive, the empty one among them.
    Other,
}
