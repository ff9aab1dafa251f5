//! Variables by activity, the most active one first. What is told of it is a matter of speed alone: each call does
//! what it can with any content, and nothing rests on the order.
use kn_logic::NoMemory;
use std::alloc::{AllocError, Global};

/// The place of a variable that is not in the heap.
const NOWHERE: usize = usize::MAX;

/// A binary heap of variables, the most active one at the front. Variables count from 1, places from 0; the children
/// of a place are at twice the place and 1 more, or 2 more.
#[derive(Debug, Drop)]
pub struct Heap {
    activities: Vec<u64>,
    order: Vec<u64>,
    places: Vec<usize>,
    len: usize,
}

impl Heap {
    /// No variable in it, with room for so many, none of them active. An error where memory is short.
    pub fn new(alloc: Global, vars: u64) -> Result<Heap, NoMemory> {
        let Some(count) = (vars as usize).checked_add(1) else {
            return Err(AllocError);
        };
        Ok(Heap {
            activities: vec![in alloc; 0; count]?,
            order: vec![in alloc; 0; count]?,
            places: vec![in alloc; NOWHERE; count]?,
            len: 0,
        })
    }

    /// The number of variables in it.
    pub fn len(&self) -> usize {
        self.len
    }

    /// Puts a variable in; nothing happens where it is there already.
    pub fn insert(&mut self, var: u64) {
        if self.place_of(var) != NOWHERE {
            return;
        }
        let place = self.len;
        if place >= self.order.len() {
            return;
        }
        self.len = place + 1;
        self.sift_up(var, place);
    }

    /// Takes the most active variable out; `None` where there is none.
    pub fn pop(&mut self) -> Option<u64> {
        if self.len == 0 {
            return None;
        }
        self.len -= 1;
        let first = self.at(0);
        let last = self.at(self.len);
        self.set_place(first, NOWHERE);
        if self.len > 0 {
            self.sift_down(last, 0);
        }
        Some(first)
    }

    /// Makes a variable more active.
    pub fn raise(&mut self, var: u64, by: u64) {
        let Some(activity) = self.activities.get_mut(var as usize) else {
            return;
        };
        *activity = activity.saturating_add(by);
        let place = self.place_of(var);
        if place < self.len {
            self.sift_up(var, place);
        }
    }

    /// Halves all activities so many times. Their order stays, but for ties.
    pub fn scale_down(&mut self, times: u32) {
        for activity in &mut self.activities {
            *activity = activity.checked_shr(times).unwrap_or(0);
        }
    }

    // the variable, whose place is free, goes up to where the one above it is as active
    fn sift_up(&mut self, var: u64, place: usize) {
        let activity = self.activity(var);
        let mut place = place;
        for _ in 0..64 {
            if place == 0 {
                break;
            }
            let above = (place - 1) / 2;
            let parent = self.at(above);
            if self.activity(parent) >= activity {
                break;
            }
            self.put(place, parent);
            place = above;
        }
        self.put(place, var);
    }

    // the variable, whose place is free, goes down to where none below it is more active
    fn sift_down(&mut self, var: u64, place: usize) {
        let activity = self.activity(var);
        let mut place = place;
        for _ in 0..64 {
            let below = self.busier_child(place);
            if below >= self.len {
                break;
            }
            let child = self.at(below);
            if self.activity(child) <= activity {
                break;
            }
            self.put(place, child);
            place = below;
        }
        self.put(place, var);
    }

    // the place of the more active child; past the end where there is none
    fn busier_child(&self, place: usize) -> usize {
        let left = place.saturating_mul(2).saturating_add(1);
        let right = left.saturating_add(1);
        if right < self.len && self.activity(self.at(right)) > self.activity(self.at(left)) {
            right
        } else {
            left
        }
    }

    fn put(&mut self, place: usize, var: u64) {
        if let Some(slot) = self.order.get_mut(place) {
            *slot = var;
        }
        self.set_place(var, place);
    }

    fn set_place(&mut self, var: u64, place: usize) {
        if let Some(slot) = self.places.get_mut(var as usize) {
            *slot = place;
        }
    }

    fn at(&self, place: usize) -> u64 {
        match self.order.get(place) {
            Some(var) => *var,
            None => 0,
        }
    }

    fn place_of(&self, var: u64) -> usize {
        match self.places.get(var as usize) {
            Some(place) => *place,
            None => NOWHERE,
        }
    }

    fn activity(&self, var: u64) -> u64 {
        match self.activities.get(var as usize) {
            Some(activity) => *activity,
            None => 0,
        }
    }
}
