//! The deepest trees and terms that the search makes, and one line or one term deeper.
mod terms;
mod trees;
