// Why reading what was written gives the list back ("The file" of document 01): theorems about the definitions of `meaning`, in `specs/`.
// `Layout.antt` says which byte stands where in a written file, `RoundTrip.antt` that the reader's definition finds in it the list that was
// given, `WriteRead.antt` the same of any two calls that keep the promises of `write` and `read` (`Promises.antt`), `Unique.antt` that those
// promises allow one result each, and `Numbers.antt` which numbers the reader can answer. No function stands here.
#![tactic(auto)]
