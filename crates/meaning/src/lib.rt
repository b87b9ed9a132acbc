// What document 01 means, and nothing else: no function stands here. `specs/` holds every definition that a contract of this
// repository cites, each with its words and its section of the document; they compute, and `specs/Examples.antt` proves
// document 01's marked examples about them by evaluation. Nothing here knows of slices, loops or tables.
#![tactic(auto)]
