//! The names of pages, from the paths of their files.
ghost use Rattle.std.specs.Prelude.{◌≡◌, ◌≢◌, ◌++◌, ◌⊎◌, ℕ, List, codes, IfOk, IfNone, IfSome, string_bytes};

use std::alloc::{AllocError, Global};

/// The name of the page in the file of a path; `None` if the file holds no page.
pub fn page_name(path: &str) -> Option<&str>
    ensures some { IfSome result (λ name. (path.now ≡ name.now ++ codes ".md")
        ⊎ (path.now ≡ name.now ++ codes ".txt")) }
    ensures none { IfNone result ((name : List ℕ) → (path.now ≢ name ++ codes ".md")
        × (path.now ≢ name ++ codes ".txt")) }
{
    match path.strip_suffix(".md") {
        Some(name) => Some(name),
        None => path.strip_suffix(".txt"),
    }
}

/// The path of the document of a page, below the folder of the documents.
pub fn document_path(alloc: Global, name: &str) -> Result<String, AllocError>
    ensures { IfOk result (λ path. string_bytes path ≡ name.now ++ codes ".html") }
{
    format!(in alloc; "{name}.html")
}
