//! What a heap's law is (`specs/HeapLaw.antt`), and what follows from its definitions alone.
//!
//! That every heap has its law is proved in `core_steps`; who asks for a `HeapLaw` needn't wait for that proof.
#![tactic(auto)]
