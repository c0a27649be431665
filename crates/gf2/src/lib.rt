// Linear algebra over the field of two elements, over any rows: docs/SPECIFICATION.md, 'Elimination'. Definitions and
// laws alone. It knows nothing of filters.
#![tactic(auto)]
